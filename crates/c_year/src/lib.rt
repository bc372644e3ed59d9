// Document 02, [6], for callers in C: a year on a lent record. include/vougecress.h documents it for its caller.
#![tactic(auto)]

ghost use Rattle.std.specs.Prelude.{◌≡◌};
ghost use Rattle.rules.specs.Year.{four_calls};
ghost use Rattle.chain.specs.Record.{record_of};
ghost use Rattle.c_year.specs.Year.{lent_record, lent_year, year_answer, year_from, year_list};

use c_values::record;
use chain::Chain;
use chain_year::Came;

// The refusal that stopped the year, or 0, and the calls that were accepted.
#[repr(C)]
#[derive(Drop)]
pub struct Year {
    pub refusal: u32,
    pub count: u64,
}

impl From<Came> for Year {
    ghost from_gives = { λ came result. result ≡ year_from came };

    fn from(came: Came) -> Year {
        let count = came.count as u64;
        match came.verdict {
            Ok(()) => Year { refusal: 0, count },
            Err(why) => Year {
                refusal: u32::from(why),
                count,
            },
        }
    }
}

// The record that a lent list holds; one that is too short holds none.
fn held(lent: &[u64]) -> Chain
    ensures { record_of result ≡ lent_record lent.now }
{
    if lent.len() < record::RECORD {
        return Chain::empty();
    }
    record::load(lent)
}

// Three quarters and the close on a lent record; the figures go to the lent buffer.
#[unsafe(no_mangle)]
pub extern "C" fn vougecress_year(
    lent: &mut [u64],
    first: &[u32],
    second: &[u32],
    third: &[u32],
    last: &[u32],
    figures: &mut [u64],
) -> Year
    ensures value { result ≡ year_answer (lent_year lent.old (four_calls first.now second.now third.now last.now) figures.old) }
    ensures lent_after { lent.new ≡ year_list (lent_year lent.old (four_calls first.now second.now third.now last.now) figures.old) lent.old }
    ensures figures_after { figures.new ≡ (lent_year lent.old (four_calls first.now second.now third.now last.now) figures.old).figures }
{
    let run = chain_year::year_of(held(lent), first, second, third, last, figures);
    let answer = Year::from(run.came);
    if lent.len() < record::RECORD {
        return answer;
    }
    record::lay(answer.refusal, run.chain, lent);
    answer
}
