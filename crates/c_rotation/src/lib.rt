// Rotation, by Pareto keys or by sequential Poisson keys, on a lent frame, old panel, births and buffer.
#![tactic(auto)]

ghost use Rattle.std.specs.Prelude.{◌≡◌};
ghost use Rattle.rules.specs.TakeAll.{frame};
ghost use Rattle.rules.specs.Rotation.{born, rotation_answer_by, rotation_leavers_by, rotation_answer, rotation_leavers};
ghost use Rattle.rules.specs.Draw.{Method as KeyMethod};
ghost use Rattle.rotation.specs.Answer.{answer_from};
ghost use Rattle.c_rotation.specs.Answer.{rotated_from};

use draw_key::Method;
use frame::Frame;
use refusals::Refusal;
use rotation_births::{Candidates, Previous};

// The answer of a rotation.
#[repr(C)]
#[derive(Drop)]
pub struct Rotated {
    pub refusal: u32,
    pub k: u32,
    pub start: u32,
    pub count: u64,
}

// (The C interface has a struct for each answer, its fields with names of their own: each is laid out by itself.)
impl From<Result<rotation::Rotated, Refusal>> for Rotated {
    ghost from_gives = { λ answer result. result ≡ rotated_from (answer_from answer) };

    fn from(answer: Result<rotation::Rotated, Refusal>) -> Rotated {
        match answer {
            Ok(rotated) => Rotated {
                refusal: 0,
                k: rotated.k,
                start: rotated.start,
                count: rotated.count as u64,
            },
            Err(why) => Rotated {
                refusal: u32::from(why),
                k: 0,
                start: 0,
                count: 0,
            },
        }
    }
}

// (The C interface has a name for each key: the two functions differ in the method alone.)
#[unsafe(no_mangle)]
pub extern "C" fn vougecress_rotate(
    numbers: &[u32],
    turnovers: &[u64],
    randoms: &[u32],
    z: usize,
    old: u32,
    panel: &[u32],
    fraction: u32,
    size: usize,
    rest: u64,
    births: &[u32],
    leavers: &mut [u32],
) -> Rotated
    ensures value { result ≡ rotated_from (rotation_answer (frame numbers.now turnovers.now randoms.now) z old panel.now
        fraction (born size rest births.now) leavers.old) }
    ensures leavers_after { leavers.new ≡ rotation_leavers (frame numbers.now turnovers.now randoms.now) z old panel.now
        fraction (born size rest births.now) leavers.old }
{
    let frame = Frame {
        numbers,
        turnovers,
        randoms,
    };
    let previous = Previous {
        start: old,
        n: size,
        rest,
    };
    let candidates = Candidates {
        panel,
        births,
        previous,
    };
    Rotated::from(rotation::rotate(&frame, z, &candidates, fraction, leavers))
}

#[unsafe(no_mangle)]
pub extern "C" fn vougecress_rotate_poisson(
    numbers: &[u32],
    turnovers: &[u64],
    randoms: &[u32],
    z: usize,
    from: u32,
    panel: &[u32],
    fraction: u32,
    previous: usize,
    rest: u64,
    births: &[u32],
    leavers: &mut [u32],
) -> Rotated
    ensures value { result ≡ rotated_from (rotation_answer_by KeyMethod.sequential_poisson (frame numbers.now turnovers.now randoms.now) z from panel.now
        fraction (born previous rest births.now) leavers.old) }
    ensures leavers_after { leavers.new ≡ rotation_leavers_by KeyMethod.sequential_poisson (frame numbers.now turnovers.now randoms.now) z from panel.now
        fraction (born previous rest births.now) leavers.old }
{
    let frame = Frame {
        numbers,
        turnovers,
        randoms,
    };
    let previous = Previous {
        start: from,
        n: previous,
        rest,
    };
    let candidates = Candidates {
        panel,
        births,
        previous,
    };
    let answer = rotation::rotate_by(
        Method::SequentialPoisson,
        &frame,
        z,
        &candidates,
        fraction,
        leavers,
    );
    Rotated::from(answer)
}
