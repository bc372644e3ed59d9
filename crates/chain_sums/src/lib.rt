// Document 01, "Chain record" and its refusals: one pass each over the weights and relatives of all units. Open, quarter and close
// are made of these and of the tests of one unit (crate `chain_weight`).
#![tactic(auto)]

ghost use Rattle.std.specs.Prelude.{◌≡◌, ◌<◌, ◌≤◌, ◌^◌, length};
ghost use Rattle.refusals.specs.Number.{refusal_of};
ghost use Rattle.rules.specs.Lists.{sum, products, scaled};
ghost use Rattle.rules.specs.Chain.{weight_refusal};
ghost use Rattle.chain_sums.specs.Limited.{limited};

use chain_weight::bad_weight;
use limits::MOST_WEIGHT;
use refusals::Refusal;

// The sum of the weights, none where it is over the limit.
pub fn limited_sum(weights: &[u64]) -> Option<u64>
    ensures { result ≡ limited (sum weights.now) }
{
    let mut acc: u64 = 0;
    for x in weights {
        if MOST_WEIGHT - acc < *x {
            return None;
        }
        acc += *x;
    }
    Some(acc)
}

// V and N of document 01.
#[derive(Clone, Copy, Debug, PartialEq, Eq)]
pub struct Sums {
    pub weights: u64,
    pub products: u64,
}

// The sum of v and the sum of v × p, in one pass.
pub fn weighted_sums(v: &[u64], p: &[u32]) -> Sums
    requires { (length v.now ≡ length p.now) × (sum v.now < 2 ^ 64) × (sum (products v.now p.now) < 2 ^ 64) }
    ensures { result ≡ record { weights = sum v.now; products = sum (products v.now p.now) } }
{
    let mut total: u64 = 0;
    let mut acc: u64 = 0;
    for (x, y) in v.iter().zip(p) {
        total += *x;
        acc += *x * u64::from(*y);
    }
    Sums {
        weights: total,
        products: acc,
    }
}

// floor(v × p / scale) of each p, laid into places of its own. There may be more v than p.
pub fn scale_into(v: &[u64], p: &[u32], scale: u64, out: &mut [u64])
    requires { (length p.now ≤ length v.now) × (length out.old ≡ length p.now) × (sum (products v.now p.now) < 2 ^ 64) × (0 < scale) }
    ensures { out.new ≡ scaled scale v.now p.now }
{
    for (i, p) in p.iter().enumerate() {
        out[i] = v[i] * u64::from(*p) / scale;
    }
}

// 21 and 22 of the weights that an open or a close would leave.
pub fn judge_weights(marks: &[u64], weights: &[u64]) -> Result<(), Refusal>
    requires { length marks.now ≡ length weights.now }
    ensures { refusal_of result ≡ weight_refusal marks.now weights.now }
{
    if marks
        .iter()
        .zip(weights)
        .any(|(mark, weight)| bad_weight(*mark, *weight))
    {
        return Err(Refusal::LowWeight);
    }
    if limited_sum(weights).is_none() {
        return Err(Refusal::WeightSum);
    }
    Ok(())
}
