// Who may be kept (document 02, [9]): units of the sampled stratum that stand in a previous list and are near the border, the largest first. The lists name
// at most 200 units, so each is sought in the frame, and no pass over the frame is made.
#![tactic(auto)]

ghost use Rattle.std.specs.Prelude.{◌≡◌, true, [], ◌+◌, ◌*◌, ◌≤◌, ◌<◌, leb, length, take};
ghost use Rattle.rules.specs.Limits.{most_panel, threshold_scale};
ghost use Rattle.rules.specs.Lists.{rising};
ghost use Rattle.rules.specs.TakeAll.{turnover};
ghost use Rattle.group_border.specs.Searched.{eligible_in, GatheredFrom, CandidatesOf};

mod border;

pub use border::Border;
use group::TAKE_ALL;
use limits::{MOST_PANEL, THRESHOLD_SCALE};

// Units of two previous lists.
pub const TWO_LISTS: usize = 2 * MOST_PANEL;

impl Border<'_> {
    // "1,000 × n × turnover ≥ γ × X"
    fn is_near(&self, i: usize) -> bool
        requires { i < length self.now.turnovers.now }
        ensures { result ≡ leb (self.now.keeping.threshold * self.now.group.rest)
            (threshold_scale * (self.now.group.n * turnover self.now.turnovers.now i)) }
    {
        let border = u64::from(self.keeping.threshold) * self.group.rest;
        let size = u64::from(THRESHOLD_SCALE) * (self.group.n as u64 * self.turnovers[i]);
        border <= size
    }

    // A unit of the frame, outside the group, that is near the border.
    fn is_eligible(&self, i: usize) -> bool
        requires { i < length self.now.turnovers.now }
        ensures { result ≡ eligible_in self.now i }
    {
        self.marks[i] != TAKE_ALL && self.is_near(i)
    }

    // Lists the candidates that stand in `list` and not in `skip` behind the first `count` places, and gives the number of all.
    fn gather(&self, skip: &[u32], list: &[u32], count: usize, places: &mut [usize]) -> usize
        requires lists { (rising skip.now ≡ true) × (rising list.now ≡ true) × (count + length list.now ≤ length places.old) }
        requires gathered { GatheredFrom self.now skip.now [] (take count places.old) }
        ensures upper_bound { result ≤ count + length list.now }
        ensures gathered_2 { GatheredFrom self.now skip.now list.now (take result places.new) }
    {
        let mut many = count;
        for &number in list {
            if let Some(i) = frame_find::find(self.numbers, number) {
                if self.is_eligible(i) && frame_find::find(skip, number).is_none() {
                    places[many] = i;
                    many += 1;
                }
            }
        }
        many
    }

    // Lists the candidates of both lists.
    fn gather_both(&self, places: &mut [usize]) -> usize
        requires { most_panel + most_panel ≤ length places.old }
        ensures upper_bound { result ≤ most_panel + most_panel }
        ensures gathered { GatheredFrom self.now self.now.keeping.first.now self.now.keeping.second.now (take result places.new) }
    {
        let few = self.gather(&[], self.keeping.first, 0, places);
        self.gather(self.keeping.first, self.keeping.second, few, places)
    }

    // The candidates in the first places, the largest first, equal turnovers by lower number; gives their number. The caller lends
    // the places, since there is no heap.
    pub fn candidates(&self, places: &mut [usize]) -> usize
        requires { most_panel + most_panel ≤ length places.old }
        ensures { CandidatesOf self.now places.new result }
    {
        let many = self.gather_both(places);
        let mut buffer = [0usize; TWO_LISTS];
        order::order(self.turnovers, &mut places[..many], &mut buffer);
        many
    }
}
