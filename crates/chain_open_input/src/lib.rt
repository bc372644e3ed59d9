// Document 01, "Chain record", open: what is refused of the input, 9 to 13.
#![tactic(auto)]

ghost use Rattle.std.specs.Prelude.{◌≡◌};
ghost use Rattle.refusals.specs.Number.{refusal_of};
ghost use Rattle.rules.specs.Chain.{bad_open_lists, bad_base, bad_shares, open_input_refusal};
ghost use Rattle.chain_open_input.specs.Lists.{over};

use chain_weight::bad_relative;
use limits::{SHARE_SCALE, bad_index, bad_units};
use refusals::Refusal;

// The lists of an opening, as a caller lends them: base weights W, shares g and updating relatives a, one of each for a unit.
#[derive(Clone, Copy)]
pub struct Lists<'a> {
    pub weights: &'a [u64],
    pub shares: &'a [u32],
    pub relatives: &'a [u32],
}

// 9: lists empty, over a panel, or unequal to each other.
fn bad_lists(lists: &Lists) -> bool
    ensures { result ≡ over bad_open_lists lists.now }
{
    bad_units(lists.weights.len())
        || lists.shares.len() != lists.weights.len()
        || lists.relatives.len() != lists.weights.len()
}

// 10: a W of 0, or a sum that passes the limit.
fn bad_base(w: &[u64]) -> bool
    ensures { result ≡ bad_base w.now }
{
    w.contains(&0) || chain_sums::limited_sum(w).is_none()
}

// 11: a share over 1, or all 0.
fn bad_shares(g: &[u32]) -> bool
    ensures { result ≡ bad_shares g.now }
{
    g.iter().any(|x| SHARE_SCALE < u64::from(*x)) || g.iter().all(|x| *x == 0)
}

// 9 to 13.
pub fn judge_input(lists: &Lists, start: u64) -> Result<(), Refusal>
    ensures { refusal_of result ≡ over open_input_refusal lists.now start }
{
    if bad_lists(lists) {
        return Err(Refusal::UnitLists);
    }
    if bad_base(lists.weights) {
        return Err(Refusal::BaseWeights);
    }
    if bad_shares(lists.shares) {
        return Err(Refusal::Shares);
    }
    if bad_index(start) {
        return Err(Refusal::StartIndex);
    }
    if lists
        .shares
        .iter()
        .zip(lists.relatives)
        .any(|(mark, update)| bad_relative(u64::from(*mark), *update))
    {
        return Err(Refusal::Relatives);
    }
    Ok(())
}
