// Document 02, [10]: the sample shared over sectors.
#![tactic(auto)]

ghost use Rattle.std.specs.Prelude.{◌≡◌};
ghost use Rattle.rules.specs.Allocation.{count_list, whole_list, remainder_list, sample_refusal, sample_counts, sample_wholes, sample_remainders};
ghost use Rattle.sector_quota.specs.Accepted.{Accepted};
ghost use Rattle.sector_judge.specs.Sharing.{sharing_of};
ghost use Rattle.sector_sample.specs.Shared.{share_refusal, counts_of, wholes_of, remainders_of};

use refusals::Refusal;
use sector_divide::Quotas;
use sector_judge::Sharing;

// The three lists of an input that 31 leaves: the passes, the quotas of those that are still there, and one more each.
fn allot(sharing: &Sharing) -> Quotas
    requires { Accepted (sharing_of sharing.now) }
    ensures counts_value { result.counts ≡ count_list (sharing_of sharing.now) }
    ensures wholes_value { result.wholes ≡ whole_list (sharing_of sharing.now) }
    ensures remainders_value { result.remainders ≡ remainder_list (sharing_of sharing.now) }
{
    let n = sharing.strengths.len();
    let gone = sector_passes::settle(sharing);
    let left = sector_passes::left_by(sharing, &gone);
    let quotas = sector_divide::divide(left, sharing, &gone);
    let wholes = quotas.wholes;
    let more = left.rest - sector_passes::sum_still(&wholes[..n], &gone);
    let remainders = quotas.remainders;
    let mut counts = quotas.counts;
    sector_more::give(&remainders, &gone, n, more as usize, &mut counts);
    Quotas {
        counts,
        wholes,
        remainders,
    }
}

// T interviews shared over sectors by strengths and minima, or refusal 31.
pub fn share(sharing: &Sharing) -> Result<Quotas, Refusal>
    ensures verdict_value { share_refusal result ≡ sample_refusal (sharing_of sharing.now) }
    ensures counts_value { counts_of result ≡ sample_counts (sharing_of sharing.now) }
    ensures wholes_value { wholes_of result ≡ sample_wholes (sharing_of sharing.now) }
    ensures remainders_value { remainders_of result ≡ sample_remainders (sharing_of sharing.now) }
{
    if sector_judge::bad_sharing(sharing) {
        return Err(Refusal::Sample);
    }
    Ok(allot(sharing))
}
