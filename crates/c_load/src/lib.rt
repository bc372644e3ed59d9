// Document 02, [13], for callers in C: the test load. include/vougecress.h documents it for its caller.
#![tactic(auto)]

ghost use Rattle.std.specs.Prelude.{◌≡◌};
ghost use Rattle.rules.specs.Load.{load_answer, load_numbers, load_turnovers, load_randoms};
ghost use Rattle.frame_made.specs.Answer.{answer_from};
ghost use Rattle.c_load.specs.Loaded.{loaded_from};

use refusals::Refusal;

#[repr(C)]
#[derive(Drop)]
pub struct Loaded {
    pub refusal: u32,
    pub count: u64,
}

// (The C interface has a struct for each answer, its fields with names of their own: each is laid out by itself.)
impl From<Result<usize, Refusal>> for Loaded {
    ghost from_gives = { λ answer result. result ≡ loaded_from (answer_from answer) };

    fn from(answer: Result<usize, Refusal>) -> Loaded {
        match answer {
            Ok(made) => Loaded {
                refusal: 0,
                count: made as u64,
            },
            Err(why) => Loaded {
                refusal: u32::from(why),
                count: 0,
            },
        }
    }
}

// The generated frame in the first `count` places of three lent lists.
#[unsafe(no_mangle)]
pub extern "C" fn vougecress_load(
    start: u64,
    count: usize,
    numbers: &mut [u32],
    turnovers: &mut [u64],
    randoms: &mut [u32],
) -> Loaded
    ensures value { result ≡ loaded_from (load_answer start count numbers.old turnovers.old randoms.old) }
    ensures numbers_after { numbers.new ≡ load_numbers start count numbers.old turnovers.old randoms.old }
    ensures turnovers_after { turnovers.new ≡ load_turnovers start count numbers.old turnovers.old randoms.old }
    ensures randoms_after { randoms.new ≡ load_randoms start count numbers.old turnovers.old randoms.old }
{
    Loaded::from(frame_made::load(start, count, numbers, turnovers, randoms))
}
