// Take-all, on lent turnovers and marks.

ghost use Rattle.std.specs.Prelude.{◌≡◌};
ghost use Rattle.rules.specs.TakeAll.{take_all_answer, take_all_marks};
ghost use Rattle.c_group.specs.Answer.{taken_from};

use c_group::Taken;

#[unsafe(no_mangle)]
pub extern "C" fn vougecress_take_all(turnovers: &[u64], z: usize, marks: &mut [u8]) -> Taken
    ensures value { result ≡ taken_from (take_all_answer turnovers.now z marks.old) }
    ensures marks_after { marks.new ≡ take_all_marks turnovers.now z marks.old }
{
    c_group::vougecress_take_all(turnovers, z, marks)
}
