// Who leaves (document 01, "Rotation"; document 02, [1]), at the step that was found: the members that are not sampled under its start, listed once,
// put in order by falling turnover, and their unit numbers written out.
#![tactic(auto)]

ghost use Rattle.std.specs.Prelude.{◌≡◌, ◌≤◌, length};
ghost use Rattle.rules.specs.Limits.{most_frame};
ghost use Rattle.rules.specs.Refusals.{written};
ghost use Rattle.rotation_step.specs.Leaving.{leaving};
ghost use Rattle.rotation_step.specs.Moved.{of};
ghost use Rattle.rotation_leavers.specs.Leavers.{Listed, Ordered, Numbered, units_in_order, numbers_of};

use draw_panel::told;
use limits::{MOST_FRAME, MOST_PANEL};
use rotation_step::Search;

// Lists the places of the members that are not sampled in the front of `places`, and gives their number. (No heap: the caller
// lends the room. Listed and counted one by one: as in `rotation_step`, that a filter's closure may be called at each member was not shown.)
fn list(search: &Search, places: &mut [usize]) -> usize
    requires { length search.now.members.now ≤ length places.old }
    ensures { of Listed search.now places.old places.new result }
{
    let told = told::tell(&search.keyed, search.z);
    let mut count: usize = 0;
    for i in search.members {
        if !told.is_sampled(&search.keyed, *i) {
            places[count] = *i;
            count += 1;
        }
    }
    count
}

// Lists them by falling turnover, equal turnovers by lower unit number. The buffer is scratch.
fn list_in_order(search: &Search, places: &mut [usize], buffer: &mut [usize]) -> usize
    requires { (length search.now.members.now ≤ length places.old) × (length search.now.members.now ≤ length buffer.old) }
    ensures { of Ordered search.now places.new result }
{
    let count = list(search, places);
    order::order(search.keyed.turnovers, &mut places[..count], buffer);
    count
}

// Writes the numbers of units, in the order of the list.
fn write_numbers(numbers: &[u32], units: &[usize], out: &mut [u32])
    requires { Numbered numbers.now units.now × (length units.now ≤ length out.old) }
    ensures { out.new ≡ written 0 (numbers_of numbers.now units.now) out.old }
{
    for (j, i) in units.iter().enumerate() {
        out[j] = numbers[*i];
    }
}

// Writes the leavers' unit numbers to the front of `out`, and gives their number, with room for N of them.
fn write_in<const N: usize>(numbers: &[u32], search: &Search, out: &mut [u32]) -> usize
    requires room { (length search.now.members.now ≤ N) × (N ≤ most_frame) }
    requires numbers_len { (length numbers.now ≡ length search.now.keyed.turnovers.now) × (length search.now.members.now ≤ length out.old) }
    ensures value { result ≡ of leaving search.now }
    ensures out_after { out.new ≡ written 0 (numbers_of numbers.now (of units_in_order search.now)) out.old }
{
    let mut places = [0usize; N];
    let mut buffer = [0usize; N];
    let units: &mut [usize] = &mut places;
    let count = list_in_order(search, units, &mut buffer);
    write_numbers(numbers, &units[..count], out);
    count
}

// The same with room of its own: that for a whole frame is not laid out for a few members.
pub fn write(numbers: &[u32], search: &Search, out: &mut [u32]) -> usize
    requires { (length numbers.now ≡ length search.now.keyed.turnovers.now) × (length search.now.members.now ≤ most_frame) × (length search.now.members.now ≤ length out.old) }
    ensures value { result ≡ of leaving search.now }
    ensures out_after { out.new ≡ written 0 (numbers_of numbers.now (of units_in_order search.now)) out.old }
{
    if search.members.len() <= MOST_PANEL {
        return write_in::<MOST_PANEL>(numbers, search, out);
    }
    write_in::<MOST_FRAME>(numbers, search, out)
}
