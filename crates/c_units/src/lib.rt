// The take-all group as unit numbers, on a lent frame, lists and buffer.
#![tactic(auto)]

ghost use Rattle.std.specs.Prelude.{◌≡◌};
ghost use Rattle.rules.specs.Kept.{keeping, take_all_units_answer, take_all_units};
ghost use Rattle.c_group.specs.Answer.{taken_from};

use c_group::Taken;
use group_keeping::Keeping;
use group_kept::TakeAll;

#[unsafe(no_mangle)]
pub extern "C" fn vougecress_take_all_units(
    numbers: &[u32],
    turnovers: &[u64],
    z: usize,
    threshold: u32,
    first: &[u32],
    second: &[u32],
    units: &mut [u32],
) -> Taken
    ensures value { result ≡ taken_from (take_all_units_answer numbers.now turnovers.now z (keeping threshold first.now second.now)
        units.old) }
    ensures units_after { units.new ≡ take_all_units numbers.now turnovers.now z (keeping threshold first.now second.now)
        units.old }
{
    let keeping = Keeping {
        threshold,
        first,
        second,
    };
    let asked = TakeAll {
        numbers,
        turnovers,
        z,
        keeping,
    };
    let answer = group_units::take_all_units(&asked, units);
    Taken::from(answer)
}
