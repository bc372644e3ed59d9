// A draw, by Pareto keys or by sequential Poisson keys, on a lent frame and buffers.

ghost use Rattle.std.specs.Prelude.{◌≡◌};
ghost use Rattle.rules.specs.TakeAll.{frame};
ghost use Rattle.rules.specs.Draw.{Method as KeyMethod, draw_answer, draw_numbers_by, draw_weights_by, draw_numbers, draw_weights};
ghost use Rattle.c_draw.specs.Answer.{drawn_from};

use c_draw::Drawn;

#[unsafe(no_mangle)]
pub extern "C" fn vougecress_draw(
    numbers: &[u32],
    turnovers: &[u64],
    randoms: &[u32],
    z: usize,
    start: u32,
    panel: &mut [u32],
    weights: &mut [u64],
) -> Drawn
    ensures value { result ≡ drawn_from (draw_answer (frame numbers.now turnovers.now randoms.now) z start panel.old weights.old) }
    ensures panel_after { panel.new ≡ draw_numbers (frame numbers.now turnovers.now randoms.now) z start panel.old weights.old }
    ensures weights_after { weights.new ≡ draw_weights (frame numbers.now turnovers.now randoms.now) z start panel.old weights.old }
{
    c_draw::vougecress_draw(numbers, turnovers, randoms, z, start, panel, weights)
}

#[unsafe(no_mangle)]
pub extern "C" fn vougecress_draw_poisson(
    numbers: &[u32],
    turnovers: &[u64],
    randoms: &[u32],
    z: usize,
    start: u32,
    panel: &mut [u32],
    weights: &mut [u64],
) -> Drawn
    ensures value { result ≡ drawn_from (draw_answer (frame numbers.now turnovers.now randoms.now) z start panel.old weights.old) }
    ensures panel_after { panel.new ≡ draw_numbers_by KeyMethod.sequential_poisson (frame numbers.now turnovers.now randoms.now) z start panel.old weights.old }
    ensures weights_after { weights.new ≡ draw_weights_by KeyMethod.sequential_poisson (frame numbers.now turnovers.now randoms.now) z start panel.old weights.old }
{
    c_draw::vougecress_draw_poisson(numbers, turnovers, randoms, z, start, panel, weights)
}
