// The take-all group as unit numbers (document 02, [9]): the list that a later draw takes. With no previous lists it is the base group, with lists the
// enlarged one (docs/DECISIONS.md, "The take-all list of a draw").
#![tactic(auto)]

ghost use Rattle.std.specs.Prelude.{◌≡◌, ◌≤◌, length, get_or};
ghost use Rattle.rules.specs.Refusals.{written};
ghost use Rattle.rules.specs.Selection.{count, listed};
ghost use Rattle.rules.specs.Kept.{take_all_units_refusal, take_all_units_answer, take_all_units};
ghost use Rattle.refusals.specs.Number.{refusal_of};
ghost use Rattle.group.specs.Group.{marked};
ghost use Rattle.group_kept.specs.TakeAll.{over};
ghost use Rattle.group_entry.specs.Answer.{answer_from};

use group::{Group, TAKE_ALL};
use group_kept::TakeAll;
use limits::MOST_FRAME;
use refusals::Refusal;

// Refusals 1, 2, 3, 5, 6 and 30: the first that applies. They are no frame's: there are no random numbers and no start.
fn judge(asked: &TakeAll, units: &[u32]) -> Result<(), Refusal>
    ensures { refusal_of result ≡ over take_all_units_refusal asked.now units.now }
{
    if asked.numbers.len() != asked.turnovers.len() || frame::bad_count(asked.turnovers) {
        return Err(Refusal::FrameLists);
    }
    if !frame::rising(asked.numbers) {
        return Err(Refusal::UnitNumbers);
    }
    if frame::bad_turnovers(asked.turnovers) {
        return Err(Refusal::Turnovers);
    }
    if frame::bad_size(asked.turnovers, asked.z) {
        return Err(Refusal::PanelSize);
    }
    if units.len() < asked.z {
        return Err(Refusal::ResultBuffer);
    }
    if group_keeping::bad_keeping(&asked.keeping) {
        return Err(Refusal::PreviousLists);
    }
    Ok(())
}

// Writes the numbers of the units that have the mark of the group, in the order of the frame.
fn write_marked(numbers: &[u32], marks: &[u8], units: &mut [u32])
    requires { (length numbers.now ≤ length marks.now) × (count (marked marks.now) (length numbers.now) ≤ length units.old) }
    ensures { units.new ≡ written 0 (listed (marked marks.now) (λ i. get_or numbers.now i 0) (length numbers.now)) units.old }
{
    let mut many: usize = 0;
    for (i, &number) in numbers.iter().enumerate() {
        if marks[i] == TAKE_ALL {
            units[many] = number;
            many += 1;
        }
    }
}

// The group of a frame at panel size z: answers how many units it has, n and X, and writes its unit numbers, rising, to the front of the lent buffer.
pub fn take_all_units(asked: &TakeAll, units: &mut [u32]) -> Result<Group, Refusal>
    ensures result_value { answer_from result ≡ over take_all_units_answer asked.now units.old }
    ensures units_after { units.new ≡ over take_all_units asked.now units.old }
{
    judge(asked, units)?;
    let mut marks = [0u8; MOST_FRAME];
    let g = asked.find_enlarged(&mut marks);
    write_marked(asked.numbers, &marks, units);
    Ok(g)
}
