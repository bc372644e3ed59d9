// Rotation, by Pareto keys or by sequential Poisson keys, on a lent frame, old panel, births and buffer.

ghost use Rattle.std.specs.Prelude.{◌≡◌};
ghost use Rattle.rules.specs.TakeAll.{frame};
ghost use Rattle.rules.specs.Rotation.{born, rotation_answer_by, rotation_leavers_by, rotation_answer, rotation_leavers};
ghost use Rattle.rules.specs.Draw.{Method as KeyMethod};
ghost use Rattle.c_rotation.specs.Answer.{rotated_from};

use c_rotation::Rotated;

#[unsafe(no_mangle)]
pub extern "C" fn vougecress_rotate(
    numbers: &[u32],
    turnovers: &[u64],
    randoms: &[u32],
    z: usize,
    old: u32,
    panel: &[u32],
    fraction: u32,
    size: usize,
    rest: u64,
    births: &[u32],
    leavers: &mut [u32],
) -> Rotated
    ensures value { result ≡ rotated_from (rotation_answer (frame numbers.now turnovers.now randoms.now) z old panel.now
        fraction (born size rest births.now) leavers.old) }
    ensures leavers_after { leavers.new ≡ rotation_leavers (frame numbers.now turnovers.now randoms.now) z old panel.now
        fraction (born size rest births.now) leavers.old }
{
    c_rotation::vougecress_rotate(
        numbers, turnovers, randoms, z, old, panel, fraction, size, rest, births, leavers,
    )
}

#[unsafe(no_mangle)]
pub extern "C" fn vougecress_rotate_poisson(
    numbers: &[u32],
    turnovers: &[u64],
    randoms: &[u32],
    z: usize,
    from: u32,
    panel: &[u32],
    fraction: u32,
    previous: usize,
    rest: u64,
    births: &[u32],
    leavers: &mut [u32],
) -> Rotated
    ensures value { result ≡ rotated_from (rotation_answer_by KeyMethod.sequential_poisson (frame numbers.now turnovers.now randoms.now) z from panel.now
        fraction (born previous rest births.now) leavers.old) }
    ensures leavers_after { leavers.new ≡ rotation_leavers_by KeyMethod.sequential_poisson (frame numbers.now turnovers.now randoms.now) z from panel.now
        fraction (born previous rest births.now) leavers.old }
{
    c_rotation::vougecress_rotate_poisson(
        numbers, turnovers, randoms, z, from, panel, fraction, previous, rest, births, leavers,
    )
}
