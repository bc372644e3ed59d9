// Document 02, [10]: what is shared over sectors, and refusal 31.
#![tactic(auto)]

ghost use Rattle.std.specs.Prelude.{◌≡◌, ◌||◌, ltb};
ghost use Rattle.std.specs.List.{list_any};
ghost use Rattle.rules.specs.Limits.{lowest_strength, highest_strength};
ghost use Rattle.rules.specs.Lists.{sum};
ghost use Rattle.rules.specs.Allocation.{bad_sharing};
ghost use Rattle.sector_judge.specs.Sharing.{sharing_of};

use limits::{HIGHEST_STRENGTH, LOWEST_STRENGTH, MOST_INTERVIEWS, MOST_SECTORS};

// T interviews for sectors, each with a strength and a minimum, as a caller lends them.
#[derive(Clone, Copy)]
pub struct Sharing<'a> {
    pub interviews: u64,
    pub strengths: &'a [u64],
    pub minima: &'a [u64],
}

fn bad_strengths(strengths: &[u64]) -> bool
    ensures { result ≡ list_any (λ x. ltb x lowest_strength || ltb highest_strength x) strengths.now }
{
    strengths.iter().any(|strength| !(LOWEST_STRENGTH..=HIGHEST_STRENGTH).contains(strength))
}

// Whether the minima together exceed T: what T has left stops before a sum could wrap.
fn exceed(minima: &[u64], interviews: u64) -> bool
    ensures { result ≡ ltb interviews (sum minima.now) }
{
    // A loop: with `try_fold` (tried) the proof did not close.
    let mut left = interviews;
    for minimum in minima {
        let Some(rest) = left.checked_sub(*minimum) else {
            return true;
        };
        left = rest;
    }
    false
}

// 31: the lists, a strength, T, and the minima.
pub fn bad_sharing(sharing: &Sharing) -> bool
    ensures { result ≡ bad_sharing (sharing_of sharing.now) }
{
    sharing.minima.len() != sharing.strengths.len()
        || sharing.strengths.is_empty()
        || MOST_SECTORS < sharing.strengths.len()
        || bad_strengths(sharing.strengths)
        || MOST_INTERVIEWS < sharing.interviews
        || exceed(sharing.minima, sharing.interviews)
}
