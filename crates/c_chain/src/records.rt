// Open and close, which leave a chain record in a lent list.
ghost use Rattle.std.specs.Prelude.{◌≡◌};
ghost use Rattle.rules.specs.Chain.{Call};
ghost use Rattle.rules.specs.Panel.{plain};
ghost use Rattle.c_values.specs.Figures.{figure_from};
ghost use Rattle.c_chain.specs.Record.{opened_number, opened_list, list_answer, list_after};

use c_values::{Figure, record};
use chain_open_input::Lists;
use refusals::Refusal;

// Opens a chain in a lent record.
#[unsafe(no_mangle)]
pub extern "C" fn vougecress_open(
    weights: &[u64],
    shares: &[u32],
    relatives: &[u32],
    start: u64,
    lent: &mut [u64],
) -> u32
    ensures value { result ≡ opened_number (plain weights.now shares.now relatives.now) start lent.old }
    ensures lent_after { lent.new ≡ opened_list (plain weights.now shares.now relatives.now) start lent.old }
{
    if lent.len() < record::RECORD {
        return u32::from(Refusal::ResultBuffer);
    }
    let lists = Lists {
        weights,
        shares,
        relatives,
    };
    record::lay_opened(chain_open::open(&lists, start), lent)
}

// A close on a lent record.
#[unsafe(no_mangle)]
pub extern "C" fn vougecress_close(lent: &mut [u64], relatives: &[u32]) -> Figure
    ensures value { result ≡ figure_from (list_answer lent.old (Call.close relatives.now)) }
    ensures lent_after { lent.new ≡ list_after lent.old (Call.close relatives.now) }
{
    if lent.len() < record::RECORD {
        return Figure::from(Err(Refusal::State));
    }
    let held = record::load(lent);
    let answered = held.close(relatives);
    let figure = Figure::from(answered.answer);
    record::lay(figure.refusal, answered.chain, lent);
    figure
}
