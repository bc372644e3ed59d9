// Document 01, "Chain record", and document 02, [5]: a relative is in hundred-thousandths, "and the range belongs to the relative itself".
#![tactic(auto)]

ghost use Rattle.chain_relative.specs.Checked.{Checks};

// A price relative that is known to be in range: its number is private, so that no other crate makes one but by `try_from`.
#[derive(Clone, Copy, Debug, PartialEq, Eq)]
pub struct Relative(u32);

// 13: a number that is no relative.
#[derive(Clone, Copy, Debug, PartialEq, Eq)]
pub struct OutOfRange;

impl Relative {
    pub const LOWEST: u32 = 25000;

    pub const HIGHEST: u32 = 400000;

    // A relative of 1. Weights are 64-bit, and so is what divides them.
    pub const SCALE: u64 = 100000;
}

impl TryFrom<u32> for Relative {
    type Error = OutOfRange;

    ghost try_from_gives = { Checks };

    fn try_from(x: u32) -> Result<Self, OutOfRange> {
        if (Relative::LOWEST..=Relative::HIGHEST).contains(&x) {
            Ok(Relative(x))
        } else {
            Err(OutOfRange)
        }
    }
}
