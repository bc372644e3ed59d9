// The members of a rotation (document 01, "Rotation"; document 02, [2]): "old panel units that are in the frame and not take-all now", and the births outside
// take-all that join them. They do not depend on the step, so a rotation finds them once and each step looks at them alone.
#![tactic(auto)]

ghost use Rattle.std.specs.Prelude.{◌≡◌, true, not, ◌+◌, ◌<◌, ◌≤◌, length};
ghost use Rattle.rules.specs.Lists.{rising};
ghost use Rattle.rules.specs.Rotation.{member};
ghost use Rattle.frame.specs.Frame.{frame_of};
ghost use Rattle.group.specs.Group.{marked};
ghost use Rattle.rotation_births.specs.Candidates.{births_of};
ghost use Rattle.rotation_members.specs.Members.{Judgeable, member_of};
ghost use Rattle.rotation_members.specs.Filled.{Filled};

use frame::Frame;
use group::TAKE_ALL;
use rotation_births::{Candidates, Previous};
use rotation_seek::Seek;

// Unit i is a member, where it is told whether it is of the old panel and whether it is a birth. A unit of both is one because it is of the old panel.
#[tactic(auto, using(crate::proofs::Judged::member_as))]
fn is_member(
    frame: &Frame,
    marks: &[u8],
    previous: Previous,
    i: usize,
    old: bool,
    birth: bool,
) -> bool
    requires { Judgeable frame.now.turnovers.now frame.now.randoms.now marks.now previous × (i < length frame.now.turnovers.now) }
    ensures { result ≡ member_of frame.now.turnovers.now frame.now.randoms.now marks.now previous i old birth }
{
    marks[i] != TAKE_ALL && (old || (birth && previous.joins(frame.randoms[i], frame.turnovers[i])))
}

// Lists the members' places, rising, in the front of `places`, and gives their number. Frame, old panel and births rise, so one pass goes through the three
// side by side. Who is take-all is told by the marks. (No heap: the caller lends the room, and the number says how much of it is filled.)
pub fn members(frame: &Frame, marks: &[u8], candidates: &Candidates, places: &mut [usize]) -> usize
    requires numbers_value { (rising frame.now.numbers.now ≡ true) × (rising candidates.now.panel.now ≡ true) × (rising candidates.now.births.now ≡ true) }
    requires judgeable { Judgeable frame.now.turnovers.now frame.now.randoms.now marks.now candidates.now.previous }
    requires numbers_len { (length frame.now.numbers.now ≡ length frame.now.turnovers.now) × (length frame.now.numbers.now ≤ length places.old) }
    ensures filled { Filled (member (frame_of frame.now) (marked marks.now) candidates.now.previous.start
        candidates.now.panel.now (births_of candidates.now)) (λ i. i) (length frame.now.numbers.now)
        places.old places.new result }
    ensures upper_bound { result ≤ length candidates.now.panel.now + length candidates.now.births.now }
{
    let mut count: usize = 0;
    let mut panel = Seek::new(candidates.panel);
    let mut births = Seek::new(candidates.births);
    for (i, number) in frame.numbers.iter().enumerate() {
        let old = panel.meets(*number);
        let birth = births.meets(*number);
        if is_member(frame, marks, candidates.previous, i, old, birth) {
            places[count] = i;
            count += 1;
        }
    }
    count
}
