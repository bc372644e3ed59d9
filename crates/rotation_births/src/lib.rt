// Births (document 02, [2]; 001, section 4.2): what a rotation refuses of them and of the previous draw's n' and X', and whether one joins.
#![tactic(auto)]

ghost use Rattle.std.specs.Prelude.{◌≡◌, true, false, not, ◌<◌, ◌≤◌};
ghost use Rattle.rules.specs.Limits.{most_turnover, random_range};
ghost use Rattle.rules.specs.Lists.{rising, elem, any_of};
ghost use Rattle.rules.specs.Draw.{shifted};
ghost use Rattle.rules.specs.Rotation.{within_previous, bad_previous, bad_births};

use draw_key::Permanent;
use limits::{MOST_FRAME, MOST_PANEL, MOST_TURNOVER, RANDOM_RANGE};
use rotation_seek::Seek;

// What the previous draw left to a rotation: its start, its sampled count n' and its rest turnover X'.
#[derive(Clone, Copy)]
pub struct Previous {
    pub start: u32,
    pub n: usize,
    pub rest: u64,
}

// Who may be a member of a rotation: the units of the old panel, and births, which join by what the previous draw left.
#[derive(Clone, Copy)]
pub struct Candidates<'a> {
    pub panel: &'a [u32],
    pub births: &'a [u32],
    pub previous: Previous,
}

impl Previous {
    // "r × X' < 1,000,000 × n' × its turnover, with r shifted by the old start". The right side can be 10^20: where n' × turnover reaches X' a birth joins
    // whatever its r, which is below 1,000,000, unless both are 0; elsewhere both sides are below 10^18.
    pub fn joins(self, random: u32, turnover: u64) -> bool
        requires random_lt_random_range { (random < random_range) × (self.start < random_range) }
        requires turnover_le_most_turnover { (turnover ≤ most_turnover) × (bad_previous self.n self.rest ≡ false) }
        ensures { result ≡ within_previous self.n self.rest (shifted self.start random) turnover }
    {
        let reach = (self.n as u64) * turnover;
        if self.rest <= reach {
            return 0 < self.rest;
        }
        let r = Permanent(random).shift(self.start);
        u64::from(r.0) * self.rest < u64::from(RANDOM_RANGE) * reach
    }

    // 25: "n' is over 100, X' is over 10^12, or X' is 0 while n' is not"
    pub fn is_bad(self) -> bool
        ensures { result ≡ bad_previous self.n self.rest }
    {
        MOST_PANEL < self.n || MOST_TURNOVER < self.rest || (self.rest == 0 && self.n != 0)
    }
}

// Some unit of the births is not in the frame. Both lists rise, so one pass goes through the two side by side.
fn outside(numbers: &[u32], births: &[u32]) -> bool
    requires { (rising numbers.now ≡ true) × (rising births.now ≡ true) }
    ensures { result ≡ any_of (λ unit. not (elem unit numbers.now)) births.now }
{
    let mut frame = Seek::new(numbers);
    for unit in births {
        if !frame.meets(*unit) {
            return true;
        }
    }
    false
}

// 26: "births exceed 16,384, are not rising or are not all in the frame"
pub fn bad_births(numbers: &[u32], births: &[u32]) -> bool
    requires { rising numbers.now ≡ true }
    ensures { result ≡ bad_births numbers.now births.now }
{
    MOST_FRAME < births.len() || !frame::rising(births) || outside(numbers, births)
}
