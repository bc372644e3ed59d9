// The short list and what is found with it, in fixed room.
ghost use Rattle.std.specs.Prelude.{◌≡◌, ◌≤◌, length, take};
ghost use Rattle.draw_list.specs.Room.{list_room};

use crate::ROOM;
use draw_bound::Bound;

// The first `count` places hold the short-listed among the first `seen` units of a frame, in the order of their numbers. (No heap: an array with its
// length beside it.)
#[derive(Drop)]
pub struct Shortlist {
    pub units: [usize; ROOM],
    pub count: usize,
    pub seen: usize,
    pub ghost room: { length units ≡ list_room },
    pub ghost few: { count ≤ list_room },
}

impl Shortlist {
    // The units that are listed.
    pub fn listed(&self) -> &[usize]
        ensures { result.now ≡ take self.now.count self.now.units }
    {
        &self.units[..self.count]
    }
}

// What is found: the short list with its units' parts, and a bound.
#[derive(Drop)]
pub struct Found {
    pub list: Shortlist,
    pub parts: [u64; ROOM],
    pub bound: Bound,
    pub ghost parts_room: { length parts ≡ list_room },
}
