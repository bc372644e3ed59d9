// Take-all as an entry of its own (document 01, "Frame and weights"; 001, section 2.3): its refusals, its answer, and a mark for each unit.
#![tactic(auto)]

ghost use Rattle.std.specs.Prelude.{◌≡◌};
ghost use Rattle.rules.specs.TakeAll.{take_all_refusal, take_all_answer, take_all_marks};
ghost use Rattle.refusals.specs.Number.{refusal_of};
ghost use Rattle.group_entry.specs.Answer.{answer_from};

use group::Group;
use refusals::Refusal;

// Refusals 1, 3, 5 and 6: the lowest that applies.
fn judge(turnovers: &[u64], z: usize, marks: &[u8]) -> Result<(), Refusal>
    ensures { refusal_of result ≡ take_all_refusal turnovers.now z marks.now }
{
    if frame::bad_count(turnovers) {
        return Err(Refusal::FrameLists);
    }
    if frame::bad_turnovers(turnovers) {
        return Err(Refusal::Turnovers);
    }
    if frame::bad_size(turnovers, z) {
        return Err(Refusal::PanelSize);
    }
    if marks.len() < turnovers.len() {
        return Err(Refusal::ResultBuffer);
    }
    Ok(())
}

// Take-all as an entry of its own: answers q, n and X, and marks each unit in the lent buffer.
pub fn take_all(turnovers: &[u64], z: usize, marks: &mut [u8]) -> Result<Group, Refusal>
    ensures result_value { answer_from result ≡ take_all_answer turnovers.now z marks.old }
    ensures marks_after { marks.new ≡ take_all_marks turnovers.now z marks.old }
{
    judge(turnovers, z, marks)?;
    Ok(group::find_group(turnovers, z, marks))
}
