// Document 02, [6]: a year in one call, the four calls made one by one.
#![tactic(auto)]

ghost use Rattle.std.specs.Prelude.{◌≡◌};
ghost use Rattle.rules.specs.Year.{four_calls, year_of};
ghost use Rattle.chain.specs.Record.{record_of};
ghost use Rattle.chain_year.specs.Run.{year_with, year_in};

use chain::{Chain, Kind};
use limits::YEAR_PLACES;
use refusals::Refusal;

// The refusal that stopped it, if one did, beside the calls that were accepted: document 02, [6] wants both, so it is no Result.
#[derive(Clone, Copy, Debug, PartialEq, Eq)]
pub struct Came {
    pub verdict: Result<(), Refusal>,
    pub count: usize,
}

// A year at its end: its record beside what it has come to.
#[derive(Clone, Copy)]
pub struct Run {
    pub chain: Chain,
    pub came: Came,
}

// Three quarters and the close on a lent record. A buffer that is too short is refused before the record is looked at.
pub fn year(
    chain: &mut Chain,
    first: &[u32],
    second: &[u32],
    third: &[u32],
    last: &[u32],
    figures: &mut [u64],
) -> Came
    ensures { year_with result chain.new figures.new
        ≡ year_of (record_of chain.old) (four_calls first.now second.now third.now last.now) figures.old }
{
    if figures.len() < YEAR_PLACES {
        return Came {
            verdict: Err(Refusal::YearRoom),
            count: 0,
        };
    }
    let calls = [
        (Kind::Quarter, first),
        (Kind::Quarter, second),
        (Kind::Quarter, third),
        (Kind::Close, last),
    ];
    for (count, (kind, p)) in calls.iter().enumerate() {
        let answered = chain.call(*kind, p);
        match answered.answer {
            Ok(figure) => figures[count] = figure,
            Err(why) => {
                return Came {
                    verdict: Err(why),
                    count,
                };
            }
        }
        *chain = answered.chain;
    }
    Came {
        verdict: Ok(()),
        count: YEAR_PLACES,
    }
}

// The same by value.
pub fn year_of(
    mut chain: Chain,
    first: &[u32],
    second: &[u32],
    third: &[u32],
    last: &[u32],
    figures: &mut [u64],
) -> Run
    ensures { year_in result figures.new
        ≡ year_of (record_of chain) (four_calls first.now second.now third.now last.now) figures.old }
{
    let came = year(&mut chain, first, second, third, last, figures);
    Run { chain, came }
}
