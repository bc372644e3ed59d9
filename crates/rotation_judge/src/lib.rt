// What a rotation refuses before it looks at any step (document 01, refusals 1 to 7; document 02, [2], refusals 25 and 26, and [9], refusal 30): the frame with
// the old start, the leavers' buffer, γ with the previous take-all lists, the old panel with the fraction, the previous n' and X', and the births, in this order.
#![tactic(auto)]

ghost use Rattle.std.specs.Prelude.{◌≡◌, true};
ghost use Rattle.rules.specs.Lists.{rising};
ghost use Rattle.rules.specs.Rotation.{short_leavers, bad_old_panel};
ghost use Rattle.refusals.specs.Number.{refusal_of};
ghost use Rattle.rotation_judge.specs.Rotation.{late_refusal, early_refusal};

use draw_key::Method;
use frame::Frame;
use group_keeping::Keeping;
use limits::{FRACTION_SCALE, MOST_PANEL};
use refusals::Refusal;
use rotation_births::Candidates;

// What a rotation is asked: by whose keys, in which frame, how large the panel is, who may be a member, which fraction of them has to leave, and what is
// taken of previous draws.
#[derive(Clone, Copy)]
pub struct Rotation<'a> {
    pub method: Method,
    pub frame: Frame<'a>,
    pub z: usize,
    pub candidates: Candidates<'a>,
    pub fraction: u32,
    pub keeping: Keeping<'a>,
}

// 7: "f over 1,000, or old panel over 100 or not rising"
fn bad_old_panel(panel: &[u32], fraction: u32) -> bool
    ensures { result ≡ bad_old_panel panel.now fraction }
{
    FRACTION_SCALE < fraction || MOST_PANEL < panel.len() || !frame::rising(panel)
}

// 6: the leavers' buffer against "the lengths of both lists, old panel and births, added". No sum is made: what the old panel leaves of the buffer is
// held against the births.
fn short_leavers(panel: &[u32], births: &[u32], leavers: &[u32]) -> bool
    ensures { result ≡ short_leavers panel.now births.now leavers.now }
{
    leavers
        .len()
        .checked_sub(panel.len())
        .is_none_or(|left| left < births.len())
}

impl Rotation<'_> {
    // Refusals 6, 30, 7, 25 and 26, in this order, over a frame whose numbers rise.
    fn judge_lists(&self, leavers: &[u32]) -> Result<(), Refusal>
        requires { rising self.now.frame.numbers.now ≡ true }
        ensures { refusal_of result ≡ late_refusal self.now leavers.now }
    {
        if short_leavers(self.candidates.panel, self.candidates.births, leavers) {
            return Err(Refusal::ResultBuffer);
        }
        if group_keeping::bad_keeping(&self.keeping) {
            return Err(Refusal::PreviousLists);
        }
        if bad_old_panel(self.candidates.panel, self.fraction) {
            return Err(Refusal::OldPanel);
        }
        if self.candidates.previous.is_bad() {
            return Err(Refusal::PreviousSample);
        }
        if rotation_births::bad_births(self.frame.numbers, self.candidates.births) {
            return Err(Refusal::Births);
        }
        Ok(())
    }

    // Refusals 1 to 6, 30, 7, 25 and 26: the first that applies. The old start is the previous draw's.
    pub fn judge(&self, leavers: &[u32]) -> Result<(), Refusal>
        ensures { refusal_of result ≡ early_refusal self.now leavers.now }
    {
        self.frame.judge(self.z, self.candidates.previous.start)?;
        self.judge_lists(leavers)
    }
}
