// The gaps of a frame's units (document 01, "Draw"; document 02, [8]): X − n × turnover, and X by sequential Poisson: the part of a key that no start changes,
// so that a rotation computes it once. A unit of the take-all group has no key, and the gap 0. That keys over these gaps order the units as the definitions'
// keys do is shown here once (proofs/Bridge.antt).
#![tactic(auto)]

ghost use Rattle.std.specs.Prelude.{◌≤◌, length};
ghost use Rattle.rules.specs.Limits.{most_turnover, most_panel};
ghost use Rattle.rules.specs.Lists.{sum};
ghost use Rattle.draw_gaps.specs.Gaps.{Gaps};

use draw_key::Method;
use group::TAKE_ALL;

// Writes the gap of each unit.
pub fn fill(turnovers: &[u64], marks: &[u8], method: Method, n: usize, rest: u64, gaps: &mut [u64])
    requires turnovers_bound { (sum turnovers.now ≤ most_turnover) × (n ≤ most_panel) }
    requires turnovers_in_bounds { (length turnovers.now ≤ length marks.now) × (length turnovers.now ≤ length gaps.old) }
    ensures { Gaps turnovers.now marks.now method n rest gaps.new }
{
    let off = draw_key::taken_off(method, n as u64);
    'units: for (i, turnover) in turnovers.iter().enumerate() {
        if marks[i] == TAKE_ALL {
            gaps[i] = 0;
        } else {
            gaps[i] = draw_key::gap(*turnover, rest, off);
        }
    }
}
