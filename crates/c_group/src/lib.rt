// Take-all, on lent turnovers and marks.
#![tactic(auto)]

ghost use Rattle.std.specs.Prelude.{◌≡◌};
ghost use Rattle.rules.specs.TakeAll.{take_all_answer, take_all_marks};
ghost use Rattle.group_entry.specs.Answer.{answer_from};
ghost use Rattle.c_group.specs.Answer.{taken_from};

use group::Group;
use refusals::Refusal;

// The answer of take-all.
#[repr(C)]
#[derive(Drop)]
pub struct Taken {
    pub refusal: u32,
    pub q: u64,
    pub n: u64,
    pub rest: u64,
}

// (The C interface has a struct for each answer, its fields with names of their own: each is laid out by itself.)
impl From<Result<Group, Refusal>> for Taken {
    ghost from_gives = { λ answer result. result ≡ taken_from (answer_from answer) };

    fn from(answer: Result<Group, Refusal>) -> Taken {
        match answer {
            Ok(g) => Taken {
                refusal: 0,
                q: g.q as u64,
                n: g.n as u64,
                rest: g.rest,
            },
            Err(why) => Taken {
                refusal: u32::from(why),
                q: 0,
                n: 0,
                rest: 0,
            },
        }
    }
}

#[unsafe(no_mangle)]
pub extern "C" fn vougecress_take_all(turnovers: &[u64], z: usize, marks: &mut [u8]) -> Taken
    ensures value { result ≡ taken_from (take_all_answer turnovers.now z marks.old) }
    ensures marks_after { marks.new ≡ take_all_marks turnovers.now z marks.old }
{
    Taken::from(group_entry::take_all(turnovers, z, marks))
}
