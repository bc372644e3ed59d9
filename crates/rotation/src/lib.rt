// Rotation (document 01, "Rotation"; document 02, [1], [2], [8] and [9]), by either key, with or without the take-all lists of previous draws: the smallest
// step of the start at which enough members leave the panel, and who leaves. The take-all group, the units' gaps and the members do not depend on the step
// and are found once; what a step does is crate `rotation_step`, who leaves at the step that is found crate `rotation_leavers`.
#![tactic(auto)]

ghost use Rattle.std.specs.Prelude.{◌≡◌, ◌≤◌, length};
ghost use Rattle.rules.specs.Limits.{most_frame, fraction_scale};
ghost use Rattle.rules.specs.Rotation.{required, rotation_answer_by, rotation_leavers_by, rotation_answer, rotation_leavers, kept_rotation_answer, kept_rotation_leavers};
ghost use Rattle.frame.specs.Frame.{frame_of};
ghost use Rattle.draw_key.specs.Methods.{method_of};
ghost use Rattle.rotation_births.specs.Candidates.{births_of};
ghost use Rattle.rotation_judge.specs.Rotation.{over, early_refusal};
ghost use Rattle.rotation.specs.Answer.{answer_from};
ghost use Rattle.rotation.specs.Left.{Left};

use draw_key::{Keyed, Method, Setting};
use frame::Frame;
use group_keeping::Keeping;
use group_kept::TakeAll;
use limits::{FRACTION_SCALE, MOST_FRAME};
use refusals::Refusal;
use rotation_births::Candidates;
use rotation_judge::Rotation;
use rotation_step::Search;

// What a rotation answers: the step, the new start and the count of the leavers.
#[derive(Clone, Copy)]
pub struct Rotated {
    pub k: u32,
    pub start: u32,
    pub count: usize,
}

// "f × members / 1,000, rounded up"
fn required(fraction: u32, members: usize) -> usize
    requires { (fraction ≤ fraction_scale) × (members ≤ most_frame) }
    ensures { result ≡ required fraction members }
{
    let thousandths = (fraction as usize) * members;
    thousandths.div_ceil(FRACTION_SCALE as usize)
}

// Writes who leaves at the first step at which at least `need` members do, if there is one.
fn leave(numbers: &[u32], search: &Search, need: usize, leavers: &mut [u32]) -> Option<Rotated>
    requires { (length numbers.now ≡ length search.now.keyed.turnovers.now) × (length search.now.members.now ≤ most_frame) × (length search.now.members.now ≤ length leavers.old) }
    ensures { Left numbers.now search.now need leavers.old leavers.new result }
{
    let k = search.first_step(need)?;
    let there = search.at(k);
    Some(Rotated {
        k,
        start: there.keyed.setting.start,
        count: rotation_leavers::write(numbers, &there, leavers),
    })
}

// Rotates what refusals 1 to 6, 30, 7, 25 and 26 let pass, from the old start on.
fn turn(asked: &Rotation, leavers: &mut [u32]) -> Result<Rotated, Refusal>
    requires { early_refusal asked.now leavers.old ≡ 0 }
    ensures result_value { answer_from result ≡ over kept_rotation_answer asked.now leavers.old }
    ensures leavers_after { leavers.new ≡ over kept_rotation_leavers asked.now leavers.old }
{
    let frame = asked.frame;
    let method = asked.method;
    let take_all = TakeAll {
        numbers: frame.numbers,
        turnovers: frame.turnovers,
        z: asked.z,
        keeping: asked.keeping,
    };
    let mut marks = [0u8; MOST_FRAME];
    let g = take_all.find_enlarged(&mut marks);
    let mut gaps = [0u64; MOST_FRAME];
    draw_gaps::fill(frame.turnovers, &marks, method, g.n, g.rest, &mut gaps);
    let mut places = [0usize; MOST_FRAME];
    let many = rotation_members::members(&frame, &marks, &asked.candidates, &mut places);
    let keyed = Keyed {
        turnovers: frame.turnovers,
        randoms: frame.randoms,
        gaps: &gaps,
        setting: Setting {
            method,
            start: asked.candidates.previous.start,
            n: g.n,
            rest: g.rest,
        },
    };
    let search = Search {
        keyed,
        members: &places[..many],
        z: asked.z,
    };
    let need = required(asked.fraction, many);
    leave(frame.numbers, &search, need, leavers).ok_or(Refusal::NoStep)
}

// Rotation by the keys of a method, with the group that a threshold and the take-all lists of up to two previous draws enlarge. Answers the smallest step,
// the new start and the count of the leavers, whose unit numbers are written to the front of the buffer, by falling turnover, equal turnovers by lower
// number; or the first refusal that applies, and then the buffer is as it was. With no births the members are the old panel's alone.
pub fn rotate_kept(asked: &Rotation, leavers: &mut [u32]) -> Result<Rotated, Refusal>
    ensures result_value { answer_from result ≡ over kept_rotation_answer asked.now leavers.old }
    ensures leavers_after { leavers.new ≡ over kept_rotation_leavers asked.now leavers.old }
{
    asked.judge(leavers)?;
    turn(asked, leavers)
}

// Rotation by the keys of a method with no previous lists: the group is the base search's.
pub fn rotate_by(
    method: Method,
    frame: &Frame,
    z: usize,
    candidates: &Candidates,
    fraction: u32,
    leavers: &mut [u32],
) -> Result<Rotated, Refusal>
    ensures result_value { answer_from result ≡ rotation_answer_by (method_of method) (frame_of frame.now) z candidates.now.previous.start
        candidates.now.panel.now fraction (births_of candidates.now) leavers.old }
    ensures leavers_after { leavers.new ≡ rotation_leavers_by (method_of method) (frame_of frame.now) z candidates.now.previous.start
        candidates.now.panel.now fraction (births_of candidates.now) leavers.old }
{
    let asked = Rotation {
        method,
        frame: *frame,
        z,
        candidates: *candidates,
        fraction,
        keeping: Keeping::none(),
    };
    rotate_kept(&asked, leavers)
}

// Rotation by Pareto keys.
pub fn rotate(
    frame: &Frame,
    z: usize,
    candidates: &Candidates,
    fraction: u32,
    leavers: &mut [u32],
) -> Result<Rotated, Refusal>
    ensures result_value { answer_from result ≡ rotation_answer (frame_of frame.now) z candidates.now.previous.start
        candidates.now.panel.now fraction (births_of candidates.now) leavers.old }
    ensures leavers_after { leavers.new ≡ rotation_leavers (frame_of frame.now) z candidates.now.previous.start
        candidates.now.panel.now fraction (births_of candidates.now) leavers.old }
{
    rotate_by(Method::Pareto, frame, z, candidates, fraction, leavers)
}
