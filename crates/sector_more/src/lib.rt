// Document 02, [10]: one more interview each, by largest remainder, earlier sector first.
// Marks are bytes, 0 for still there: a list of Booleans would ask more of a caller than before.
#![tactic(auto)]

ghost use Rattle.std.specs.Prelude.{◌≤◌, length};
ghost use Rattle.rules.specs.Selection.{count};
ghost use Rattle.rules.specs.TakeAll.{larger};
ghost use Rattle.selection.specs.Ranked.{Ranked};
ghost use Rattle.selection.specs.Held.{Held};
ghost use Rattle.sector_passes.specs.Marks.{still_in};
ghost use Rattle.sector_more.specs.Given.{Givable, Given};

use limits::MOST_SECTORS;

// The sectors that are still there, in their order. Gives how many they are.
fn list_still(gone: &[u8], sectors: usize, places: &mut [usize]) -> usize
    requires { (sectors ≤ length gone.now) × (sectors ≤ length places.old) }
    ensures { Held (still_in gone.now) (λ i. i) sectors places.new result }
{
    let mut many: usize = 0;
    for i in 0..sectors {
        if gone[i] == 0 {
            places[many] = i;
            many += 1;
        }
    }
    many
}

// The same, by largest remainder.
fn rank_still(
    remainders: &[u64],
    gone: &[u8],
    sectors: usize,
    places: &mut [usize],
    buffer: &mut [usize],
)
    requires { (sectors ≤ length remainders.now) × (sectors ≤ length gone.now) × (sectors ≤ length places.old) × (sectors ≤ length buffer.old) }
    ensures { Ranked (still_in gone.now) (larger remainders.now) sectors places.new (count (still_in gone.now) sectors) }
{
    let many = list_still(gone, sectors, places);
    order::order(remainders, &mut places[..many], buffer);
}

// One more for each of the `more` sectors with the largest remainders, of those that are still there.
// How many sectors there are stands beside the lists: lists cut to it would ask more of a caller than before.
pub fn give(remainders: &[u64], gone: &[u8], sectors: usize, more: usize, counts: &mut [u64])
    requires { Givable remainders.now gone.now sectors more counts.old }
    ensures { Given (still_in gone.now) (larger remainders.now) sectors more counts.old counts.new }
{
    let mut places = [0usize; MOST_SECTORS];
    let mut buffer = [0usize; MOST_SECTORS];
    rank_still(remainders, gone, sectors, &mut places, &mut buffer);
    for place in &places[..more] {
        counts[*place] += 1;
    }
}
