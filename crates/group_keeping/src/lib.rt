// The parameters of document 02, [9], as refusal 30 judges them: a threshold γ in thousandths, and the take-all lists of up to two previous draws.
#![tactic(auto)]

ghost use Rattle.std.specs.Prelude.{◌≡◌, []};
ghost use Rattle.rules.specs.Limits.{threshold_scale};
ghost use Rattle.rules.specs.Kept.{keeping, bad_list, bad_keeping};
ghost use Rattle.group_keeping.specs.Keeping.{keeping_of};

use limits::{MOST_PANEL, THRESHOLD_SCALE};

// The threshold γ and the take-all lists of up to two previous draws. An empty list is no list.
#[derive(Clone, Copy)]
pub struct Keeping<'a> {
    pub threshold: u32,
    pub first: &'a [u32],
    pub second: &'a [u32],
}

impl Keeping<'_> {
    // What a draw with no previous lists takes of them: nothing, with the threshold of 1.
    pub fn none() -> Self
        ensures { keeping_of result ≡ keeping threshold_scale [] [] }
    {
        Keeping {
            threshold: THRESHOLD_SCALE,
            first: &[],
            second: &[],
        }
    }
}

// "a previous list is over 100 or not rising"
fn bad_list(list: &[u32]) -> bool
    ensures { result ≡ bad_list list.now }
{
    MOST_PANEL < list.len() || !frame::rising(list)
}

// 30: "γ is 0 or over 1,000, or a previous list is over 100 or not rising"
pub fn bad_keeping(keeping: &Keeping) -> bool
    ensures { result ≡ bad_keeping (keeping_of keeping.now) }
{
    !(1..=THRESHOLD_SCALE).contains(&keeping.threshold)
        || bad_list(keeping.first)
        || bad_list(keeping.second)
}
