// The frame's tests (document 01, "Frame and weights", refusals 1 to 5). A frame is three lent lists: unit numbers, turnovers and
// random numbers. Each test is a function of its own, one pass over one list; `judge` asks them in the order of the refusals.
#![tactic(auto)]

ghost use Rattle.std.specs.Prelude.{◌≡◌};
ghost use Rattle.rules.specs.Lists.{rising, any_of};
ghost use Rattle.rules.specs.TakeAll.{bad_count, bad_turnovers, bad_size};
ghost use Rattle.rules.specs.Draw.{bad_lists, bad_random, frame_refusal};
ghost use Rattle.refusals.specs.Number.{refusal_of};
ghost use Rattle.frame.specs.Frame.{frame_of};

use limits::{MOST_FRAME, MOST_PANEL, MOST_TURNOVER, RANDOM_RANGE};
use refusals::Refusal;

// The three lists of a frame, as a caller lends them.
#[derive(Clone, Copy)]
pub struct Frame<'a> {
    pub numbers: &'a [u32],
    pub turnovers: &'a [u64],
    pub randoms: &'a [u32],
}

// "empty or over 16,384"
#[tactic(auto, using(rules::proofs::Tests::or_on, rules::proofs::Tests::or_off), unfolding(rules::specs::TakeAll::bad_count))]
pub fn bad_count(turnovers: &[u64]) -> bool
    ensures { result ≡ bad_count turnovers.now }
{
    turnovers.is_empty() || MOST_FRAME < turnovers.len()
}

// "strictly rising". `is_sorted_by` would be plainer, but a pass that may stop in the middle takes four times as long.
pub fn rising(numbers: &[u32]) -> bool
    ensures { result ≡ rising numbers.now }
{
    let mut rises = true;
    for i in 1..numbers.len() {
        if numbers[i] <= numbers[i - 1] {
            rises = false;
        }
    }
    rises
}

// "a turnover 0, or total over 10^12": what the total has left falls to where it would pass the limit, so that no sum wraps.
pub fn bad_turnovers(turnovers: &[u64]) -> bool
    ensures { result ≡ bad_turnovers turnovers.now }
{
    let mut left = MOST_TURNOVER;
    for turnover in turnovers {
        if *turnover == 0 {
            return true;
        }
        let Some(rest) = left.checked_sub(*turnover) else {
            return true;
        };
        left = rest;
    }
    false
}

// "random number … over 999,999": asked of the largest, since a pass that may stop in the middle takes longer
pub fn bad_randoms(randoms: &[u32]) -> bool
    ensures { result ≡ any_of bad_random randoms.now }
{
    RANDOM_RANGE <= randoms.iter().copied().max().unwrap_or(0)
}

// "z is 0, over 100 or over the units"
pub fn bad_size(turnovers: &[u64], z: usize) -> bool
    ensures { result ≡ bad_size turnovers.now z }
{
    z == 0 || MOST_PANEL < z || turnovers.len() < z
}

impl Frame<'_> {
    // "frame lists unequal, empty or over 16,384"
    pub fn bad_lists(&self) -> bool
        ensures { result ≡ bad_lists (frame_of self.now) }
    {
        self.numbers.len() != self.turnovers.len()
            || self.randoms.len() != self.turnovers.len()
            || bad_count(self.turnovers)
    }

    // Refusals 1 to 5, which draw and rotation share: the lowest that applies.
    pub fn judge(&self, z: usize, start: u32) -> Result<(), Refusal>
        ensures { refusal_of result ≡ frame_refusal (frame_of self.now) z start }
    {
        if self.bad_lists() {
            return Err(Refusal::FrameLists);
        }
        if !rising(self.numbers) {
            return Err(Refusal::UnitNumbers);
        }
        if bad_turnovers(self.turnovers) {
            return Err(Refusal::Turnovers);
        }
        if bad_randoms(self.randoms) || RANDOM_RANGE <= start {
            return Err(Refusal::RandomNumbers);
        }
        if bad_size(self.turnovers, z) {
            return Err(Refusal::PanelSize);
        }
        Ok(())
    }
}
