// Rotation with a threshold and the take-all lists of previous draws (document 02, [9]), by either key, on a lent frame, old panel, births, lists and buffer.
#![tactic(auto)]

ghost use Rattle.std.specs.Prelude.{◌≡◌};
ghost use Rattle.rules.specs.TakeAll.{frame};
ghost use Rattle.rules.specs.Kept.{keeping};
ghost use Rattle.rules.specs.Draw.{Method as KeyMethod};
ghost use Rattle.rules.specs.Rotation.{born, kept_rotation_answer, kept_rotation_leavers};
ghost use Rattle.c_rotation.specs.Answer.{rotated_from};

use c_rotation::Rotated;
use draw_key::Method;
use frame::Frame;
use group_keeping::Keeping;
use rotation_births::{Candidates, Previous};
use rotation_judge::Rotation;

// (The C interface has a name for each key: the two functions differ in the method alone.)
#[unsafe(no_mangle)]
pub extern "C" fn vougecress_rotate_kept(
    numbers: &[u32],
    turnovers: &[u64],
    randoms: &[u32],
    z: usize,
    old: u32,
    panel: &[u32],
    fraction: u32,
    size: usize,
    rest: u64,
    births: &[u32],
    threshold: u32,
    first: &[u32],
    second: &[u32],
    leavers: &mut [u32],
) -> Rotated
    ensures value { result ≡ rotated_from (kept_rotation_answer KeyMethod.pareto (frame numbers.now turnovers.now randoms.now) z old panel.now
        fraction (born size rest births.now) (keeping threshold first.now second.now) leavers.old) }
    ensures leavers_after { leavers.new ≡ kept_rotation_leavers KeyMethod.pareto (frame numbers.now turnovers.now randoms.now) z old panel.now
        fraction (born size rest births.now) (keeping threshold first.now second.now) leavers.old }
{
    let previous = Previous {
        start: old,
        n: size,
        rest,
    };
    let asked = Rotation {
        method: Method::Pareto,
        frame: Frame {
            numbers,
            turnovers,
            randoms,
        },
        z,
        candidates: Candidates {
            panel,
            births,
            previous,
        },
        fraction,
        keeping: Keeping {
            threshold,
            first,
            second,
        },
    };
    Rotated::from(rotation::rotate_kept(&asked, leavers))
}

#[unsafe(no_mangle)]
pub extern "C" fn vougecress_rotate_poisson_kept(
    numbers: &[u32],
    turnovers: &[u64],
    randoms: &[u32],
    z: usize,
    old: u32,
    panel: &[u32],
    fraction: u32,
    size: usize,
    rest: u64,
    births: &[u32],
    threshold: u32,
    first: &[u32],
    second: &[u32],
    leavers: &mut [u32],
) -> Rotated
    ensures value { result ≡ rotated_from (kept_rotation_answer KeyMethod.sequential_poisson (frame numbers.now turnovers.now randoms.now) z old panel.now
        fraction (born size rest births.now) (keeping threshold first.now second.now) leavers.old) }
    ensures leavers_after { leavers.new ≡ kept_rotation_leavers KeyMethod.sequential_poisson (frame numbers.now turnovers.now randoms.now) z old panel.now
        fraction (born size rest births.now) (keeping threshold first.now second.now) leavers.old }
{
    let previous = Previous {
        start: old,
        n: size,
        rest,
    };
    let asked = Rotation {
        method: Method::SequentialPoisson,
        frame: Frame {
            numbers,
            turnovers,
            randoms,
        },
        z,
        candidates: Candidates {
            panel,
            births,
            previous,
        },
        fraction,
        keeping: Keeping {
            threshold,
            first,
            second,
        },
    };
    Rotated::from(rotation::rotate_kept(&asked, leavers))
}
