// Document 01, "Total" and refusal 14; 001, formula 11: the index over sectors.
#![tactic(auto)]

ghost use Rattle.std.specs.Prelude.{◌≡◌, ◌<◌, ◌≤◌, ◌^◌, length};
ghost use Rattle.rules.specs.Limits.{most_sectors};
ghost use Rattle.std.specs.List.{list_any, sum_by};
ghost use Rattle.rules.specs.Lists.{sum, products};
ghost use Rattle.rules.specs.Chain.{bad_index};
ghost use Rattle.rules.specs.Total.{bad_sectors, total_answer};
ghost use Rattle.sector_total.specs.Answer.{total_from};

use limits::{MOST_SECTORS, SECTOR_SCALE, bad_index};
use refusals::Refusal;

// The sum of the shares; so few cannot wrap.
fn added(shares: &[u32]) -> u64
    requires { length shares.now ≤ most_sectors }
    ensures { result ≡ sum_by (λ share. share) shares.now }
{
    shares.iter().map(|share| u64::from(*share)).sum()
}

fn out_of_range(indices: &[u64]) -> bool
    ensures { result ≡ list_any bad_index indices.now }
{
    indices.iter().any(|index| bad_index(*index))
}

// 14: lists unequal, empty, too long, not adding to 1, or an index out of range.
#[tactic(auto, using(crate::proofs::Std::bad_as))]
fn bad_sectors(shares: &[u32], indices: &[u64]) -> bool
    ensures { result ≡ bad_sectors shares.now indices.now }
{
    indices.len() != shares.len()
        || shares.is_empty()
        || MOST_SECTORS < shares.len()
        || added(shares) != SECTOR_SCALE
        || out_of_range(indices)
}

// The sum of share × index.
fn weighted(shares: &[u32], indices: &[u64]) -> u64
    requires { (length indices.now ≡ length shares.now) × (sum (products shares.now indices.now) < 2 ^ 64) }
    ensures { result ≡ sum (products shares.now indices.now) }
{
    let mut acc: u64 = 0;
    for (share, index) in shares.iter().zip(indices) {
        acc += u64::from(*share) * *index;
    }
    acc
}

// 001, formula 11, or refusal 14.
pub fn total(shares: &[u32], indices: &[u64]) -> Result<u64, Refusal>
    ensures { total_from result ≡ total_answer shares.now indices.now }
{
    if bad_sectors(shares, indices) {
        return Err(Refusal::Sectors);
    }
    Ok(weighted(shares, indices) / SECTOR_SCALE)
}
