// A draw, by Pareto keys or by sequential Poisson keys, on a lent frame and buffers.
#![tactic(auto)]

ghost use Rattle.std.specs.Prelude.{◌≡◌};
ghost use Rattle.rules.specs.TakeAll.{frame};
ghost use Rattle.rules.specs.Draw.{Method as KeyMethod, draw_answer, draw_numbers_by, draw_weights_by, draw_numbers, draw_weights};
ghost use Rattle.draw.specs.Answer.{answer_from};
ghost use Rattle.c_draw.specs.Answer.{drawn_from};

use draw_key::Method;
use frame::Frame;
use refusals::Refusal;

// The answer of a draw.
#[repr(C)]
#[derive(Drop)]
pub struct Drawn {
    pub refusal: u32,
    pub n: u64,
    pub rest: u64,
}

// (The C interface has a struct for each answer, its fields with names of their own: each is laid out by itself.)
impl From<Result<draw::Drawn, Refusal>> for Drawn {
    ghost from_gives = { λ answer result. result ≡ drawn_from (answer_from answer) };

    fn from(answer: Result<draw::Drawn, Refusal>) -> Drawn {
        match answer {
            Ok(drawn) => Drawn {
                refusal: 0,
                n: drawn.n as u64,
                rest: drawn.rest,
            },
            Err(why) => Drawn {
                refusal: u32::from(why),
                n: 0,
                rest: 0,
            },
        }
    }
}

// (The C interface has a name for each key: the two functions differ in the method alone.)
#[unsafe(no_mangle)]
pub extern "C" fn vougecress_draw(
    numbers: &[u32],
    turnovers: &[u64],
    randoms: &[u32],
    z: usize,
    start: u32,
    panel: &mut [u32],
    weights: &mut [u64],
) -> Drawn
    ensures value { result ≡ drawn_from (draw_answer (frame numbers.now turnovers.now randoms.now) z start panel.old weights.old) }
    ensures panel_after { panel.new ≡ draw_numbers (frame numbers.now turnovers.now randoms.now) z start panel.old weights.old }
    ensures weights_after { weights.new ≡ draw_weights (frame numbers.now turnovers.now randoms.now) z start panel.old weights.old }
{
    let frame = Frame {
        numbers,
        turnovers,
        randoms,
    };
    Drawn::from(draw::draw(&frame, z, start, panel, weights))
}

#[unsafe(no_mangle)]
pub extern "C" fn vougecress_draw_poisson(
    numbers: &[u32],
    turnovers: &[u64],
    randoms: &[u32],
    z: usize,
    start: u32,
    panel: &mut [u32],
    weights: &mut [u64],
) -> Drawn
    ensures value { result ≡ drawn_from (draw_answer (frame numbers.now turnovers.now randoms.now) z start panel.old weights.old) }
    ensures panel_after { panel.new ≡ draw_numbers_by KeyMethod.sequential_poisson (frame numbers.now turnovers.now randoms.now) z start panel.old weights.old }
    ensures weights_after { weights.new ≡ draw_weights_by KeyMethod.sequential_poisson (frame numbers.now turnovers.now randoms.now) z start panel.old weights.old }
{
    let frame = Frame {
        numbers,
        turnovers,
        randoms,
    };
    let answer = draw::draw_by(Method::SequentialPoisson, &frame, z, start, panel, weights);
    Drawn::from(answer)
}
