// What the search at the border reads. It has a file of its own, since the words that speak of it stand above it.
ghost use Rattle.group_border.specs.Border.{Bordered, Numbered, Listed};

use group::Group;
use group_keeping::Keeping;

// A frame, the marks of its group with n and X, and the parameters, as refusals 1 to 3, 5 and 30 leave them.
#[derive(Clone, Copy)]
pub struct Border<'a> {
    pub numbers: &'a [u32],
    pub turnovers: &'a [u64],
    pub marks: &'a [u8],
    pub group: Group,
    pub keeping: Keeping<'a>,
    ghost bordered: { Bordered turnovers.now marks.now keeping.threshold group.n group.rest },
    ghost numbered: { Numbered numbers.now turnovers.now },
    ghost first_is: { Listed keeping.first.now },
    ghost second_is: { Listed keeping.second.now },
}
