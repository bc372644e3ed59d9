// Document 02, [10]: the quotas' whole parts and remainders, by what is left to share and the marks of the sectors that left.
// Marks are bytes, 0 for still there: a list of Booleans would ask more of a caller than before.
#![tactic(auto)]

ghost use Rattle.std.specs.Prelude.{◌≡◌, cond, ◌*◌, ◌/◌, ◌%◌, ◌≤◌, ◌<◌};
ghost use Rattle.rules.specs.Limits.{highest_strength, most_interviews};
ghost use Rattle.rules.specs.Allocation.{sectors, in_places};
ghost use Rattle.sector_judge.specs.Sharing.{sharing_of};
ghost use Rattle.sector_divide.specs.Quotas.{count_by, whole_by, remainder_by, Dividable};

use limits::MOST_SECTORS;
use sector_judge::Sharing;
use sector_passes::Left;

// The three lists of the answer: a struct for C holds the same three, so they are no list of parts.
#[derive(Drop)]
pub struct Quotas {
    pub counts: [u64; MOST_SECTORS],
    pub wholes: [u64; MOST_SECTORS],
    pub remainders: [u64; MOST_SECTORS],
}

// One sector's place in them.
#[derive(Drop)]
struct Part {
    count: u64,
    whole: u64,
    remainder: u64,
}

// The quota of a sector that is still there, or the minimum of one that left.
fn quota(left: Left, strength: u64, minimum: u64, still: bool) -> Part
    requires { (0 < left.total) × (left.rest ≤ most_interviews) × (strength ≤ highest_strength) }
    ensures count_value { result.count ≡ cond still (left.rest * strength / left.total) minimum }
    ensures whole_value { result.whole ≡ cond still (left.rest * strength / left.total) 0 }
    ensures remainder_value { result.remainder ≡ cond still (left.rest * strength % left.total) 0 }
{
    if !still {
        return Part {
            count: minimum,
            whole: 0,
            remainder: 0,
        };
    }
    let product = left.rest * strength;
    let whole = product / left.total;
    Part {
        count: whole,
        whole,
        remainder: product % left.total,
    }
}

// Minima and whole parts, before one more each.
pub fn divide(left: Left, sharing: &Sharing, gone: &[u8]) -> Quotas
    requires { Dividable left.rest left.total (sharing_of sharing.now) gone.now }
    ensures counts_value { result.counts ≡ in_places (sectors (sharing_of sharing.now)) (count_by left.rest left.total (sharing_of sharing.now) gone.now) }
    ensures wholes_value { result.wholes ≡ in_places (sectors (sharing_of sharing.now)) (whole_by left.rest left.total (sharing_of sharing.now) gone.now) }
    ensures remainders_value { result.remainders ≡ in_places (sectors (sharing_of sharing.now)) (remainder_by left.rest left.total (sharing_of sharing.now) gone.now) }
{
    // Minima and marks by index: over a zip with `enumerate` (tried) the loop has no index, and the proof did not close.
    let minima = sharing.minima;
    let mut counts = [0; MOST_SECTORS];
    let mut wholes = [0; MOST_SECTORS];
    let mut remainders = [0; MOST_SECTORS];
    for (i, strength) in sharing.strengths.iter().enumerate() {
        let part = quota(left, *strength, minima[i], gone[i] == 0);
        counts[i] = part.count;
        wholes[i] = part.whole;
        remainders[i] = part.remainder;
    }
    Quotas {
        counts,
        wholes,
        remainders,
    }
}
