// Document 02, [10]: the passes in which sectors leave. A mark of 0 says that a sector is still there, as it is beyond the marks.
// Marks are bytes: a list of Booleans would ask more of a caller than before.
#![tactic(auto)]

ghost use Rattle.std.specs.Prelude.{◌≡◌, not, ℕ, length};
ghost use Rattle.rules.specs.Limits.{most_sectors};
ghost use Rattle.rules.specs.Tests.{◌and◌};
ghost use Rattle.rules.specs.Selection.{sum_of, count};
ghost use Rattle.rules.specs.Allocation.{sectors, remaining, strengths_left, stayed};
ghost use Rattle.sector_quota.specs.Accepted.{Accepted};
ghost use Rattle.sector_judge.specs.Sharing.{sharing_of};
ghost use Rattle.sector_passes.specs.Marks.{still_in, marked_as, value_of, is_below, Summable, Passable};

use limits::MOST_SECTORS;
use sector_judge::Sharing;

// The sum of the values of the sectors that are still there, or else of those that left.
fn sum_marked(values: &[u64], gone: &[u8], still: bool) -> u64
    requires { Summable values.now gone.now }
    ensures { result ≡ sum_of (marked_as still gone.now) (value_of values.now) (length values.now) }
{
    let mut sum: u64 = 0;
    for (value, mark) in values.iter().zip(gone) {
        if (*mark == 0) == still {
            sum += *value;
        }
    }
    sum
}

// The sum of the values of the sectors that are still there.
pub fn sum_still(values: &[u64], gone: &[u8]) -> u64
    requires { Summable values.now gone.now }
    ensures { result ≡ sum_of (still_in gone.now) (value_of values.now) (length values.now) }
{
    sum_marked(values, gone, true)
}

// The sum of the values of the sectors that left.
pub fn sum_gone(values: &[u64], gone: &[u8]) -> u64
    requires { Summable values.now gone.now }
    ensures { result ≡ sum_of (λ i. not (still_in gone.now i)) (value_of values.now) (length values.now) }
{
    sum_marked(values, gone, false)
}

// What is left to share once some sectors left: T', and the strengths of those that are still there.
#[derive(Clone, Copy)]
pub struct Left {
    pub rest: u64,
    pub total: u64,
}

// What these marks leave to share.
pub fn left_by(sharing: &Sharing, gone: &[u8]) -> Left
    requires { Accepted (sharing_of sharing.now) × (length gone.now ≡ most_sectors) }
    ensures rest_value { result.rest ≡ remaining (sharing_of sharing.now) (still_in gone.now) }
    ensures total_value { result.total ≡ strengths_left (sharing_of sharing.now) (still_in gone.now) }
{
    Left {
        rest: sharing.interviews - sum_gone(sharing.minima, gone),
        total: sum_still(sharing.strengths, gone),
    }
}

// One pass: marks all whose quota is below their minimum, and answers how many they are.
fn pass(left: Left, sharing: &Sharing, gone: &mut [u8]) -> usize
    requires { Passable left.rest left.total (sharing_of sharing.now) gone.old }
    ensures value { result ≡ count (λ i. still_in gone.old i and is_below left.rest left.total (sharing_of sharing.now) i) (sectors (sharing_of sharing.now)) }
    ensures by_index { (i : ℕ) → still_in gone.new i ≡ (still_in gone.old i and not (is_below left.rest left.total (sharing_of sharing.now) i)) }
{
    // Minima by index: over a zip with `enumerate` (tried) the loop has no index, and the proof did not close.
    let minima = sharing.minima;
    let mut leave: usize = 0;
    for (i, strength) in sharing.strengths.iter().enumerate() {
        if gone[i] == 0 && left.rest * *strength < minima[i] * left.total {
            gone[i] = 1;
            leave += 1;
        }
    }
    leave
}

// The passes, until none leaves: who has left.
pub fn settle(sharing: &Sharing) -> [u8; MOST_SECTORS]
    requires { Accepted (sharing_of sharing.now) }
    ensures result_value { still_in result ≡ stayed (sharing_of sharing.now) }
    ensures result_len { length result ≡ most_sectors }
{
    let mut gone = [0u8; MOST_SECTORS];
    for _k in 0..sharing.strengths.len() {
        let leave = pass(left_by(sharing, &gone), sharing, &mut gone);
        if leave == 0 {
            return gone;
        }
    }
    gone
}
