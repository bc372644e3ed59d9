// The units with the smallest keys, found without ordering them. About n units have a key of at most n (001, formula 22: of the keys over n, about
// n are below 1), so those of at most half as much again are put on a short list. Their keys' whole parts at a large scale are single numbers; the
// z-th smallest of these is a bound. That exactly z units are within the bound, and that units of its own part are parted rightly, is checked; where the
// check fails nothing is answered, and the caller orders the keys instead.
#![tactic(auto)]

ghost use Rattle.std.specs.Prelude.{◌≡◌, ◌≤◌, ◌<◌, length, IfSome};
ghost use Rattle.rules.specs.Selection.{count};
ghost use Rattle.selection.specs.Marked.{Placed};
ghost use Rattle.draw_key.specs.Keyed.{over, size_of};
ghost use Rattle.draw_bound.specs.Bound.{near};
ghost use Rattle.draw_list.specs.Room.{list_room};
ghost use Rattle.draw_list.specs.Found.{Listed, Under, Scaled, Parts, IsFound};

use draw_bound::Bound;
use draw_key::Keyed;

pub mod found;

pub use found::{Found, Shortlist};

// Units on a short list.
pub const ROOM: usize = 256;

// The largest number of 64 bits.
pub const MOST_WORD: u64 = u64::MAX;

// The short list of a frame; it ends early where it has no room for all of them.
pub fn collect(keyed: &Keyed) -> Shortlist
    ensures within_frame { result.seen ≤ size_of keyed.now }
    ensures listed { over Listed keyed.now result.seen result.units result.count }
    ensures full { result.seen < size_of keyed.now → list_room < count (over near keyed.now) (size_of keyed.now) }
{
    let reach = draw_bound::reach_of(keyed.setting.n);
    let mut units = [0usize; ROOM];
    let mut count: usize = 0;
    'units: for i in 0..keyed.turnovers.len() {
        if draw_bound::is_near(keyed.key(i), reach) {
            if ROOM <= count {
                return Shortlist {
                    units,
                    count,
                    seen: i,
                };
            }
            units[count] = i;
            count += 1;
        }
    }
    Shortlist {
        units,
        count,
        seen: keyed.turnovers.len(),
    }
}

// The largest numerator of the listed units' keys, and at least 1. (`map` and `max` were tried: that the closure may be called at each unit was not shown.)
fn most_numerator(keyed: &Keyed, units: &[usize]) -> u64
    requires { Placed (size_of keyed.now) units.now }
    ensures { (0 < result) × Under keyed.now.randoms.now keyed.now.gaps.now keyed.now.setting units.now result }
{
    let mut most: u64 = 1;
    'units: for i in units {
        most = most.max(keyed.key(*i).num);
    }
    most
}

// The parts of the listed units: the whole part of key × scale.
fn parts_of(keyed: &Keyed, scale: u64, units: &[usize]) -> [u64; ROOM]
    requires units { Placed (size_of keyed.now) units.now × (length units.now ≤ list_room) }
    requires scaled { Scaled keyed.now.randoms.now keyed.now.gaps.now keyed.now.setting units.now scale }
    ensures { (length result ≡ list_room) × over Parts keyed.now scale units.now result }
{
    let mut parts = [0u64; ROOM];
    'units: for (j, i) in units.iter().enumerate() {
        let key = keyed.key(*i);
        parts[j] = key.num * scale / key.den;
    }
    parts
}

// One unit in sixteen is asked first: where none of them is near, as with random numbers that are not spread, a whole pass would find too few.
fn is_worth(keyed: &Keyed) -> bool {
    let reach = draw_bound::reach_of(keyed.setting.n);
    // `(0..n).step_by(16).any(..)` was tried: that the closure may be called at each number was not shown.
    'sixteenths: for k in 0..keyed.turnovers.len().div_ceil(16) {
        if draw_bound::is_near(keyed.key(16 * k), reach) {
            return true;
        }
    }
    false
}

// Looks for a bound of z units. There is none where nobody is sampled, where the short list is too short or too long, or where the check fails.
pub fn find(keyed: &Keyed, z: usize) -> Option<Found>
    ensures { IfSome result (over IsFound keyed.now z) }
{
    if keyed.setting.n == 0 || !is_worth(keyed) {
        return None;
    }
    let list = collect(keyed);
    if list.seen < keyed.turnovers.len() {
        return None;
    }
    let units = list.listed();
    let scale = MOST_WORD / most_numerator(keyed, units);
    let parts = parts_of(keyed, scale, units);
    let found = &parts[..list.count];
    let part = draw_search::nth(found, z);
    let last = draw_search::last_unit(units, found, part, z);
    let bound = Bound { scale, part, last };
    if !draw_bound::is_checked(keyed, units, &parts, bound, z) {
        return None;
    }
    Some(Found { list, parts, bound })
}
