// Document 01, "Job stream": the commands that give a value, a unit of the frame, a share and a relative of the panel; refusals 18 and 20.
// Whoever uses the value judges it.
#![tactic(auto)]

ghost use Rattle.std.specs.Prelude.{◌≡◌, cond, ltb, min, Option, Some, None};
ghost use Rattle.rules.specs.Limits.{most_panel};
ghost use Rattle.rules.specs.Stream.{Command};
ghost use Rattle.job_state.specs.Steps.{Steps};

use job_state::{HeldPanel, Job, Saying, Stepped, said};
use limits::MOST_HELD;
use refusals::Refusal;

// 1: a unit joins the frame.
pub fn on_unit(mut job: Job, number: u32, turnover: u64, random: u32) -> Stepped
    ensures { Steps job (Command.unit number turnover random) result }
{
    let at = job.frame.units;
    if MOST_HELD <= at {
        return said(job, Err(Refusal::FrameFull));
    }
    job.frame.numbers[at] = number;
    job.frame.turnovers[at] = turnover;
    job.frame.randoms[at] = random;
    job.frame.units = at + 1;
    said(job, Ok(Saying::Nothing))
}

// The place of a unit of the panel; none is not below the panel's size.
fn place_in(panel: &HeldPanel, place: u8) -> Option<usize>
    ensures { result ≡ cond (ltb place (min panel.now.size most_panel)) (Some place) None }
{
    let at = usize::from(place);
    (at < panel.units()).then_some(at)
}

// 3: a share of a unit of the panel.
pub fn on_share(mut job: Job, place: u8, share: u16) -> Stepped
    ensures { Steps job (Command.share place share) result }
{
    let Some(at) = place_in(&job.panel, place) else {
        return said(job, Err(Refusal::Place));
    };
    job.panel.shares[at] = u32::from(share);
    said(job, Ok(Saying::Nothing))
}

// 4: a relative of a unit of the panel.
pub fn on_relative(mut job: Job, place: u8, relative: u32) -> Stepped
    ensures { Steps job (Command.relative place relative) result }
{
    let Some(unit) = place_in(&job.panel, place) else {
        return said(job, Err(Refusal::Place));
    };
    job.panel.pending[unit] = relative;
    said(job, Ok(Saying::Nothing))
}
