// A draw with a threshold and the take-all lists of previous draws (document 02, [9]), by either key, on a lent frame, lists and buffers.
#![tactic(auto)]

ghost use Rattle.std.specs.Prelude.{◌≡◌};
ghost use Rattle.rules.specs.TakeAll.{frame};
ghost use Rattle.rules.specs.Kept.{keeping};
ghost use Rattle.rules.specs.Draw.{Method as KeyMethod, kept_draw_answer, kept_draw_numbers, kept_draw_weights};
ghost use Rattle.c_draw.specs.Answer.{drawn_from};

use c_draw::Drawn;
use draw::Design;
use draw_key::Method;
use frame::Frame;
use group_keeping::Keeping;

// (The C interface has a name for each key: the two functions differ in the method alone.)
#[unsafe(no_mangle)]
pub extern "C" fn vougecress_draw_kept(
    numbers: &[u32],
    turnovers: &[u64],
    randoms: &[u32],
    z: usize,
    start: u32,
    threshold: u32,
    first: &[u32],
    second: &[u32],
    panel: &mut [u32],
    weights: &mut [u64],
) -> Drawn
    ensures value { result ≡ drawn_from (kept_draw_answer (frame numbers.now turnovers.now randoms.now) z start
        (keeping threshold first.now second.now) panel.old weights.old) }
    ensures panel_after { panel.new ≡ kept_draw_numbers KeyMethod.pareto (frame numbers.now turnovers.now randoms.now) z start
        (keeping threshold first.now second.now) panel.old weights.old }
    ensures weights_after { weights.new ≡ kept_draw_weights KeyMethod.pareto (frame numbers.now turnovers.now randoms.now) z start
        (keeping threshold first.now second.now) panel.old weights.old }
{
    let design = Design {
        method: Method::Pareto,
        frame: Frame {
            numbers,
            turnovers,
            randoms,
        },
        z,
        start,
        keeping: Keeping {
            threshold,
            first,
            second,
        },
    };
    Drawn::from(draw::draw_kept(&design, panel, weights))
}

#[unsafe(no_mangle)]
pub extern "C" fn vougecress_draw_poisson_kept(
    numbers: &[u32],
    turnovers: &[u64],
    randoms: &[u32],
    z: usize,
    start: u32,
    threshold: u32,
    first: &[u32],
    second: &[u32],
    panel: &mut [u32],
    weights: &mut [u64],
) -> Drawn
    ensures value { result ≡ drawn_from (kept_draw_answer (frame numbers.now turnovers.now randoms.now) z start
        (keeping threshold first.now second.now) panel.old weights.old) }
    ensures panel_after { panel.new ≡ kept_draw_numbers KeyMethod.sequential_poisson (frame numbers.now turnovers.now randoms.now) z start
        (keeping threshold first.now second.now) panel.old weights.old }
    ensures weights_after { weights.new ≡ kept_draw_weights KeyMethod.sequential_poisson (frame numbers.now turnovers.now randoms.now) z start
        (keeping threshold first.now second.now) panel.old weights.old }
{
    let design = Design {
        method: Method::SequentialPoisson,
        frame: Frame {
            numbers,
            turnovers,
            randoms,
        },
        z,
        start,
        keeping: Keeping {
            threshold,
            first,
            second,
        },
    };
    Drawn::from(draw::draw_kept(&design, panel, weights))
}
