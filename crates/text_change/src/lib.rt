// Document 02, [12]: the change of a figure against the year before, in hundredths of a percent, and the exact rest.
#![tactic(auto)]

ghost use Rattle.std.specs.Prelude.{◌≡◌, ◌≤◌, pos, ◌-ℤ◌, ◌*ℤ◌};
ghost use Rattle.rules.specs.Limits.{lowest_index, highest_index, change_scale};
ghost use Rattle.rules.specs.Sheet.{change_of};
ghost use Rattle.text_change.specs.Values.{change_from, Sized};

use limits::CHANGE_SCALE;

// A change in whole hundredths of a percent, and the rest, which is not negative.
#[derive(Clone, Copy)]
pub struct Change {
    pub hundredths: i64,
    pub rest: u64,
}

// The difference of two figures, ten thousandfold.
fn scaled(new: u64, old: u64) -> i64
    requires { (new ≤ highest_index) × (old ≤ highest_index) }
    ensures { result ≡ (pos new -ℤ pos old) *ℤ pos change_scale }
{
    (new as i64 - old as i64) * CHANGE_SCALE as i64
}

// The quotient towards minus infinity, so that the rest is not negative.
pub fn moved(new: u64, old: u64) -> Change
    requires { (new ≤ highest_index) × (lowest_index ≤ old) × (old ≤ highest_index) }
    ensures result_value { change_from result ≡ change_of new old }
    ensures sized { Sized result.hundredths }
{
    let n = scaled(new, old);
    let old = old as i64;
    Change {
        hundredths: n.div_euclid(old),
        rest: n.rem_euclid(old) as u64,
    }
}
