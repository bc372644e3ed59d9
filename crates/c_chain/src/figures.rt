// A quarter and a total, which answer a figure and write nothing.
ghost use Rattle.std.specs.Prelude.{◌≡◌};
ghost use Rattle.rules.specs.Chain.{Call};
ghost use Rattle.rules.specs.Total.{total_answer};
ghost use Rattle.c_values.specs.Figures.{figure_from};
ghost use Rattle.c_chain.specs.Record.{list_answer};

use c_values::{Figure, record};
use refusals::Refusal;

// A quarter on a lent record.
#[unsafe(no_mangle)]
pub extern "C" fn vougecress_quarter(lent: &[u64], relatives: &[u32]) -> Figure
    ensures { result ≡ figure_from (list_answer lent.now (Call.quarter relatives.now)) }
{
    if lent.len() < record::RECORD {
        return Figure::from(Err(Refusal::State));
    }
    Figure::from(record::load(lent).quarter(relatives).answer)
}

// The index over sectors.
#[unsafe(no_mangle)]
pub extern "C" fn vougecress_total(shares: &[u32], indices: &[u64]) -> Figure
    ensures { result ≡ figure_from (total_answer shares.now indices.now) }
{
    Figure::from(sector_total::total(shares, indices))
}
