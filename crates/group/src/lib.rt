// The take-all group of a frame (document 01, "Frame and weights"; 001, section 2.3): its size q, n, the rest turnover X, and a mark for each unit
// that tells whether it is in the group.
#![tactic(auto)]

ghost use Rattle.std.specs.Prelude.{◌≡◌, ◌≤◌, length};
ghost use Rattle.rules.specs.Refusals.{written};
ghost use Rattle.rules.specs.TakeAll.{take_all_group};
ghost use Rattle.group_least.specs.Size.{Sized, has_least};
ghost use Rattle.group.specs.Group.{marks_of, IsGroup};

use group_least::Size;

// The take-all group as a value: q units; n more are sampled, and rest is X. Who the q are stands in the marks.
#[derive(Clone, Copy)]
pub struct Group {
    pub q: usize,
    pub n: usize,
    pub rest: u64,
}

// The mark of a unit of the group; one outside has 0. Bytes, and no enum: the list is the one that C lends to `vougecress_take_all`, and draws and rotations
// call the same functions.
pub const TAKE_ALL: u8 = 1;

// A mark for each unit: that of the group where it has at least this turnover, 0 where it has less.
fn mark(turnovers: &[u64], least: u64, marks: &mut [u8])
    requires { length turnovers.now ≤ length marks.old }
    ensures { marks.new ≡ written 0 (marks_of (has_least turnovers.now least) (length turnovers.now)) marks.old }
{
    for (i, &turnover) in turnovers.iter().enumerate() {
        marks[i] = u8::from(least <= turnover);
    }
}

// The group of a frame that refusals 3 and 5 leave, and a mark for each unit: 1 in the group and 0 outside.
// (Speed: with nobody in the group, comparing each turnover takes two thirds as long as the search before it, the fill a hundredth of that.)
pub fn find_group(turnovers: &[u64], z: usize, marks: &mut [u8]) -> Group
    requires { Sized turnovers.now z × (length turnovers.now ≤ length marks.old) }
    ensures group { IsGroup turnovers.now z marks.new result }
    ensures marks_after { marks.new ≡ written 0 (marks_of (take_all_group turnovers.now z).takes_all (length turnovers.now)) marks.old }
{
    let Size { q, n, rest, least } = group_least::find_size(turnovers, z);
    if q == 0 {
        marks[..turnovers.len()].fill(0);
    } else {
        mark(turnovers, least, marks);
    }
    Group { q, n, rest }
}
