// The panel written out (document 01, "Draw"): unit numbers in rising order with their W, from a short list whose units within its bound are the panel, or
// from marks over the frame. Who is sampled, asked of a few units only, is module `told`.
#![tactic(auto)]

ghost use Rattle.std.specs.Prelude.{◌≡◌, ◌<◌, ◌≤◌, length, get_or, set};
ghost use Rattle.rules.specs.Refusals.{written};
ghost use Rattle.rules.specs.Selection.{count};
ghost use Rattle.draw_key.specs.Keyed.{over, size_of};
ghost use Rattle.draw_list.specs.Found.{passing, found_of, Passing};
ghost use Rattle.draw_panel.specs.Panel.{Weighable, Markable, weight_by, marked_size, marked_of, panel_size, panel_of};

use draw_key::{Keyed, Setting};
use draw_list::Found;
use group::TAKE_ALL;
use limits::MOST_PANEL;

pub mod told;

// The mark of a sampled unit, beside that of a take-all unit (`group::TAKE_ALL`).
const SAMPLED: u8 = 2;

// The units of a frame with their marks, under a setting: ready for a W that fits 64 bits.
#[derive(Clone, Copy)]
pub struct Weighed<'a> {
    pub numbers: &'a [u32],
    pub turnovers: &'a [u64],
    pub marks: &'a [u8],
    pub setting: Setting,
    pub ghost weighable: { Weighable turnovers.now marks.now setting },
    pub ghost numbered: { length numbers.now ≡ length turnovers.now },
}

impl<'a> Weighed<'a> {
    // W of unit i: X for a sampled unit, n × its turnover for a take-all unit, and its turnover under cut-off.
    #[tactic(auto, unfolding(rules::specs::TakeAll::base_weight, group::specs::Group::marked))]
    fn weight(&self, i: usize) -> u64
        requires { i < length self.now.turnovers.now }
        ensures { result ≡ weight_by self.now.turnovers.now self.now.marks.now self.now.setting i }
    {
        if self.setting.n == 0 {
            return self.turnovers[i];
        }
        if self.marks[i] == TAKE_ALL {
            return (self.setting.n as u64) * self.turnovers[i];
        }
        self.setting.rest
    }

    // Writes unit i and its W at place k. (Two lists, as C lends them, and no struct of both: the definitions give the numbers and the weights each for itself.)
    fn write(&self, i: usize, k: usize, panel: &mut [u32], weights: &mut [u64])
        requires unit { i < length self.now.turnovers.now }
        requires place { (k < length panel.old) × (k < length weights.old) }
        ensures panel_after { panel.new ≡ set panel.old k (get_or self.now.numbers.now i 0) }
        ensures weights_after { weights.new ≡ set weights.old k (weight_by self.now.turnovers.now self.now.marks.now self.now.setting i) }
    {
        panel[k] = self.numbers[i];
        weights[k] = self.weight(i);
    }
}

// Writes the units that have any mark: take-all units and sampled ones.
pub fn write_marked(w: &Weighed, panel: &mut [u32], weights: &mut [u64])
    requires { (marked_size w.now.turnovers.now w.now.marks.now ≤ length panel.old) × (marked_size w.now.turnovers.now w.now.marks.now ≤ length weights.old) }
    ensures panel_after { panel.new ≡ written 0 (marked_of w.now.turnovers.now w.now.marks.now (λ i. get_or w.now.numbers.now i 0)) panel.old }
    ensures weights_after { weights.new ≡ written 0 (marked_of w.now.turnovers.now w.now.marks.now (weight_by w.now.turnovers.now w.now.marks.now w.now.setting)) weights.old }
{
    let mut k: usize = 0;
    'units: for i in 0..w.turnovers.len() {
        if w.marks[i] != 0 {
            w.write(i, k, panel, weights);
            k += 1;
        }
    }
}

// Writes the panel by putting the keys in order: where no short list decides. The sampled units get a mark of their own beside the take-all units.
pub fn write_ordered(
    numbers: &[u32],
    keyed: &Keyed,
    marks: &mut [u8],
    panel: &mut [u32],
    weights: &mut [u64],
)
    requires markable { Weighable keyed.now.turnovers.now marks.old keyed.now.setting × Markable keyed.now.turnovers.now keyed.now.gaps.now marks.old }
    requires numbers_len { (length numbers.now ≡ size_of keyed.now) × (panel_size keyed.now.turnovers.now keyed.now.randoms.now keyed.now.gaps.now marks.old keyed.now.setting ≤ length panel.old)
        × (panel_size keyed.now.turnovers.now keyed.now.randoms.now keyed.now.gaps.now marks.old keyed.now.setting ≤ length weights.old) }
    ensures panel_after { panel.new ≡ written 0 (panel_of keyed.now.turnovers.now keyed.now.randoms.now keyed.now.gaps.now marks.old keyed.now.setting (λ i. get_or numbers.now i 0)) panel.old }
    ensures weights_after { weights.new ≡ written 0 (panel_of keyed.now.turnovers.now keyed.now.randoms.now keyed.now.gaps.now marks.old keyed.now.setting
        (weight_by keyed.now.turnovers.now marks.old keyed.now.setting)) weights.old }
{
    let mut units = [0usize; MOST_PANEL];
    draw_order::sampled_units(keyed, &mut units);
    selection::mark(&units[..keyed.setting.n], SAMPLED, marks);
    let weighed = Weighed {
        numbers,
        turnovers: keyed.turnovers,
        marks,
        setting: keyed.setting,
    };
    write_marked(&weighed, panel, weights);
}

// Writes the units of a short list that are within its bound, in the order of their numbers.
pub fn write_found(w: &Weighed, found: &Found, panel: &mut [u32], weights: &mut [u64])
    requires passing { Passing (length w.now.turnovers.now) found.now }
    requires count_in_bounds { (count (passing found.now) found.now.list.count ≤ length panel.old) × (count (passing found.now) found.now.list.count ≤ length weights.old) }
    ensures panel_after { panel.new ≡ written 0 (found_of found.now (λ i. get_or w.now.numbers.now i 0)) panel.old }
    ensures weights_after { weights.new ≡ written 0 (found_of found.now (weight_by w.now.turnovers.now w.now.marks.now w.now.setting)) weights.old }
{
    let mut k: usize = 0;
    'listed: for (i, part) in found.list.listed().iter().zip(found.parts.iter()) {
        if draw_bound::is_passed(found.bound, *part, *i) {
            w.write(*i, k, panel, weights);
            k += 1;
        }
    }
}
