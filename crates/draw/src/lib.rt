// The draw (document 01, "Frame and weights" and "Draw"; 001, section 2.3 and formulas 21 and 22; document 02, [8] and [9]): a panel of z units of a frame,
// under a start, by Pareto keys or by sequential Poisson keys, with or without the take-all lists of previous draws.
#![tactic(auto)]

ghost use Rattle.std.specs.Prelude.{◌≡◌, ◌≤◌, length};
ghost use Rattle.rules.specs.Limits.{most_frame};
ghost use Rattle.rules.specs.Draw.{draw_answer, draw_numbers_by, draw_weights_by, draw_numbers, draw_weights, kept_draw_refusal, kept_draw_answer, kept_draw_numbers, kept_draw_weights};
ghost use Rattle.refusals.specs.Number.{refusal_of};
ghost use Rattle.frame.specs.Frame.{frame_of};
ghost use Rattle.draw_key.specs.Methods.{method_of};
ghost use Rattle.draw.specs.Answer.{answer_from};
ghost use Rattle.draw.specs.Design.{over, by_key, group_of, IsSize, numbers_over, weights_over};

use draw_key::{Keyed, Method, Setting};
use draw_panel::Weighed;
use frame::Frame;
use group::Group;
use group_keeping::Keeping;
use group_kept::TakeAll;
use limits::MOST_FRAME;
use refusals::Refusal;

// Units of a small frame: as many as a job holds.
const SMALL_FRAME: usize = 1024;

// What a draw answers: the number n of sampled units and the rest turnover X.
#[derive(Clone, Copy)]
pub struct Drawn {
    pub n: usize,
    pub rest: u64,
}

// What a draw is asked: by whose keys, from which frame, how large the panel is, from which start on, and what is taken of previous draws.
#[derive(Clone, Copy)]
pub struct Design<'a> {
    pub method: Method,
    pub frame: Frame<'a>,
    pub z: usize,
    pub start: u32,
    pub keeping: Keeping<'a>,
}

impl Design<'_> {
    // Refusals 1 to 6 and 30: the first that applies.
    fn judge(&self, panel: &[u32], weights: &[u64]) -> Result<(), Refusal>
        ensures { refusal_of result ≡ over kept_draw_refusal self.now panel.now weights.now }
    {
        self.frame.judge(self.z, self.start)?;
        if panel.len() < self.z || weights.len() < self.z {
            return Err(Refusal::ResultBuffer);
        }
        if group_keeping::bad_keeping(&self.keeping) {
            return Err(Refusal::PreviousLists);
        }
        Ok(())
    }

    // (Keyed and Weighed name the lists that each reads: a frame in both would lengthen every clause that speaks of them, and spare four lines here.)
    // Draws the panel of a frame that no refusal stops, with room for the gaps and the marks of N units, and answers the take-all group that it was drawn with.
    fn draw_in<const N: usize>(&self, panel: &mut [u32], weights: &mut [u64]) -> Group
        requires accepted { over kept_draw_refusal self.now panel.old weights.old ≡ 0 }
        requires room { (length self.now.frame.turnovers.now ≤ N) × (N ≤ most_frame) }
        ensures size { IsSize (group_of self.now) result }
        ensures panel_after { panel.new ≡ numbers_over self.now panel.old }
        ensures weights_after { weights.new ≡ weights_over self.now weights.old }
    {
        let frame = self.frame;
        let method = self.method;
        let take_all = TakeAll {
            numbers: frame.numbers,
            turnovers: frame.turnovers,
            z: self.z,
            keeping: self.keeping,
        };
        let mut marks = [0u8; N];
        let g = take_all.find_enlarged(&mut marks);
        let mut gaps = [0u64; N];
        draw_gaps::fill(frame.turnovers, &marks, method, g.n, g.rest, &mut gaps);
        let setting = Setting {
            method,
            start: self.start,
            n: g.n,
            rest: g.rest,
        };
        let keyed = Keyed {
            turnovers: frame.turnovers,
            randoms: frame.randoms,
            gaps: &gaps,
            setting,
        };
        let weighed = Weighed {
            numbers: frame.numbers,
            turnovers: frame.turnovers,
            marks: &marks,
            setting,
        };
        match draw_list::find(&keyed, self.z) {
            Some(found) => draw_panel::write_found(&weighed, &found, panel, weights),
            None => draw_panel::write_ordered(frame.numbers, &keyed, &mut marks, panel, weights),
        }
        g
    }

    // The same. Room for the largest frame is not laid out for a small one.
    fn draw_panel(&self, panel: &mut [u32], weights: &mut [u64]) -> Group
        requires { over kept_draw_refusal self.now panel.old weights.old ≡ 0 }
        ensures size { IsSize (group_of self.now) result }
        ensures panel_after { panel.new ≡ numbers_over self.now panel.old }
        ensures weights_after { weights.new ≡ weights_over self.now weights.old }
    {
        if self.frame.turnovers.len() <= SMALL_FRAME {
            return self.draw_in::<SMALL_FRAME>(panel, weights);
        }
        self.draw_in::<MOST_FRAME>(panel, weights)
    }
}

// Draws z units by the keys of a method, with the group that a threshold and the take-all lists of up to two previous draws enlarge: writes their numbers, in
// rising order, and their W into the first z places of the two lent buffers; answers n and X.
pub fn draw_kept(design: &Design, panel: &mut [u32], weights: &mut [u64]) -> Result<Drawn, Refusal>
    ensures result_value { answer_from result ≡ over kept_draw_answer design.now panel.old weights.old }
    ensures panel_after { panel.new ≡ by_key kept_draw_numbers design.now panel.old weights.old }
    ensures weights_after { weights.new ≡ by_key kept_draw_weights design.now panel.old weights.old }
{
    design.judge(panel, weights)?;
    let Group { n, rest, .. } = design.draw_panel(panel, weights);
    Ok(Drawn { n, rest })
}

// Draws z units by the keys of a method, with no previous lists: the group is the base search's.
pub fn draw_by(
    method: Method,
    frame: &Frame,
    z: usize,
    start: u32,
    panel: &mut [u32],
    weights: &mut [u64],
) -> Result<Drawn, Refusal>
    ensures result_value { answer_from result ≡ draw_answer (frame_of frame.now) z start panel.old weights.old }
    ensures panel_after { panel.new ≡ draw_numbers_by (method_of method) (frame_of frame.now) z start panel.old weights.old }
    ensures weights_after { weights.new ≡ draw_weights_by (method_of method) (frame_of frame.now) z start panel.old weights.old }
{
    let design = Design {
        method,
        frame: *frame,
        z,
        start,
        keeping: Keeping::none(),
    };
    draw_kept(&design, panel, weights)
}

// The Pareto draw.
pub fn draw(
    frame: &Frame,
    z: usize,
    start: u32,
    panel: &mut [u32],
    weights: &mut [u64],
) -> Result<Drawn, Refusal>
    ensures result_value { answer_from result ≡ draw_answer (frame_of frame.now) z start panel.old weights.old }
    ensures panel_after { panel.new ≡ draw_numbers (frame_of frame.now) z start panel.old weights.old }
    ensures weights_after { weights.new ≡ draw_weights (frame_of frame.now) z start panel.old weights.old }
{
    draw_by(Method::Pareto, frame, z, start, panel, weights)
}
