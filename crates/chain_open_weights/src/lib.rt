// Document 01, "Chain record", open, in two steps: the weights u; and from the u, however they were come by, the opening weights v and what is
// refused of both, 21 and 22.
#![tactic(auto)]

ghost use Rattle.std.specs.Prelude.{◌≡◌, length};
ghost use Rattle.refusals.specs.Number.{refusal_of};
ghost use Rattle.rules.specs.Chain.{shared, opening, open_weight_refusal};
ghost use Rattle.chain_open_weights.specs.Weighable.{Shareable, Weighable};

use chain_relative::Relative;
use chain_sums::{limited_sum, scale_into};
use chain_weight::bad_weight;
use limits::SHARE_SCALE;
use refusals::Refusal;

// u = floor(W × g / 10,000) of each unit.
pub fn share_into(w: &[u64], g: &[u32], u: &mut [u64])
    requires { Shareable w.now g.now u.old }
    ensures { u.new ≡ shared w.now g.now }
{
    scale_into(w, g, SHARE_SCALE, u);
}

// 21 and 22. The last list holds the opening weights where neither applies.
pub fn weigh(marks: &[u32], u: &[u64], a: &[u32], v: &mut [u64]) -> Result<(), Refusal>
    requires { Weighable marks.now u.now a.now × (length v.old ≡ length u.now) }
    ensures result_value { refusal_of result ≡ open_weight_refusal marks.now u.now a.now }
    ensures v_after { refusal_of result ≡ 0 → v.new ≡ opening u.now a.now }
{
    if marks
        .iter()
        .zip(u)
        .any(|(mark, weight)| bad_weight(u64::from(*mark), *weight))
    {
        return Err(Refusal::LowWeight);
    }
    scale_into(u, a, Relative::SCALE, v);
    if marks
        .iter()
        .zip(&*v)
        .any(|(mark, weight)| bad_weight(u64::from(*mark), *weight))
    {
        return Err(Refusal::LowWeight);
    }
    if limited_sum(v).is_none() {
        return Err(Refusal::WeightSum);
    }
    Ok(())
}
