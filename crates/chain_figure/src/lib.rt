// Document 01, "Chain record": what quarter and close share, the refusals that come first and last, and the figure. The record's places are lent,
// so that no call copies them.
#![tactic(auto)]

ghost use Rattle.std.specs.Prelude.{◌≡◌, ◌*◌, ◌/◌, ◌<◌, ◌≤◌};
ghost use Rattle.refusals.specs.Number.{refusal_of};
ghost use Rattle.rules.specs.Limits.{most_weight, highest_relative, link_scale};
ghost use Rattle.rules.specs.Chain.{call_input_refusal, figure_of};
ghost use Rattle.chain_record.specs.Record.{lent_record};
ghost use Rattle.chain_figure.specs.Steps.{reckoned_of, reckoned_from, late_refusal};

use chain_record::{Numbers, Record};
use chain_relative::Relative;
use chain_weight::bad_relative;
use limits::{LINK_SCALE, bad_index};
use refusals::Refusal;

// 19, 9 and 13.
fn judge_call(lent: &Record, p: &[u32]) -> Result<(), Refusal>
    ensures { refusal_of result ≡ call_input_refusal (lent_record lent.now) p.now }
{
    if lent.is_broken() {
        return Err(Refusal::State);
    }
    if p.len() != lent.numbers.units {
        return Err(Refusal::UnitLists);
    }
    if lent.held().iter().zip(p).any(|(v, r)| bad_relative(*v, *r)) {
        return Err(Refusal::Relatives);
    }
    Ok(())
}

// L = floor(N × 1,000 / V) by quotient and remainder, since N × 1,000 need not fit.
fn link(n: u64, v: u64) -> u64
    requires { (0 < v) × (v ≤ most_weight) × (n ≤ highest_relative * v) }
    ensures { result ≡ n * link_scale / v }
{
    let whole = n / v;
    let rest = n % v;
    LINK_SCALE * whole + LINK_SCALE * rest / v
}

// F of a call that 19, 9 and 13 let pass.
fn figure(lent: &Record, p: &[u32]) -> u64
    requires { call_input_refusal (lent_record lent.now) p.now ≡ 0 }
    ensures { result ≡ figure_of (lent_record lent.now) p.now }
{
    let sums = chain_sums::weighted_sums(lent.held(), p);
    let l = link(sums.products, sums.weights);
    lent.numbers.index * l / (LINK_SCALE * Relative::SCALE)
}

// What a call comes to but for 21 to 24: 19, 9 or 13, or else the figure.
pub fn reckon(lent: &Record, p: &[u32]) -> Result<u64, Refusal>
    ensures { reckoned_from result ≡ reckoned_of (lent_record lent.now) p.now }
{
    judge_call(lent, p)?;
    Ok(figure(lent, p))
}

// 23 and 24 of a call with this figure, on a record with these numbers; a close's new weights are judged before.
#[tactic(auto, using(crate::proofs::Late::range_refused, crate::proofs::Late::spent_refused, crate::proofs::Late::none_late))]
pub fn judge_figure(figure: u64, numbers: Numbers) -> Result<(), Refusal>
    ensures { refusal_of result ≡ late_refusal figure numbers }
{
    if bad_index(figure) {
        return Err(Refusal::FigureRange);
    }
    if numbers.is_spent() {
        return Err(Refusal::ClosesSpent);
    }
    Ok(())
}
