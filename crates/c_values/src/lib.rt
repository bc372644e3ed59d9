// What crosses to a caller in C: the figure of a call, the chain record as a list of numbers, and a command that was read.
// The exported functions stand in crate vougecress.
#![tactic(auto)]

pub mod reads;
pub mod record;

ghost use Rattle.std.specs.Prelude.{◌≡◌};
ghost use Rattle.chain.specs.Record.{answer_from};
ghost use Rattle.c_values.specs.Figures.{figure_from};

use refusals::Refusal;

// The answer of a quarter, a close or a total.
#[repr(C)]
#[derive(Drop)]
pub struct Figure {
    pub refusal: u32,
    pub figure: u64,
}

// (The C interface has a struct for each answer, its fields with names of their own: each is laid out by itself.)
impl From<Result<u64, Refusal>> for Figure {
    ghost from_gives = { λ answer result. result ≡ figure_from (answer_from answer) };

    fn from(answer: Result<u64, Refusal>) -> Figure {
        match answer {
            Ok(figure) => Figure { refusal: 0, figure },
            Err(why) => Figure {
                refusal: u32::from(why),
                figure: 0,
            },
        }
    }
}
