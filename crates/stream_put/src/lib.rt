// Document 02, [4]: operands of two, four and eight bytes, the highest byte first, laid into a lent buffer with the room.
// A function for each width: std's `to_be_bytes` is a method of each type of numbers, and of no trait.
#![tactic(auto)]

ghost use Rattle.rules.specs.Writing.{bytes_with};
ghost use Rattle.text_decimal.specs.Wrote.{Room, Wrote};

use text_decimal::Writer;

// Lays two bytes, the first the highest.
pub fn put_two_bytes(w: &mut Writer, x: u16)
    requires { Room w.old 2 }
    ensures { Wrote w.old (bytes_with 2 x) w.new }
{
    let two = x.to_be_bytes();
    w.bytes(&two);
}

// Lays a word of four bytes.
pub fn put_word(w: &mut Writer, x: u32)
    requires { Room w.old 4 }
    ensures { Wrote w.old (bytes_with 4 x) w.new }
{
    let four = x.to_be_bytes();
    w.bytes(&four);
}

// Lays two words, the upper first.
pub fn put_two_words(w: &mut Writer, x: u64)
    requires { Room w.old 8 }
    ensures { Wrote w.old (bytes_with 8 x) w.new }
{
    let eight = x.to_be_bytes();
    w.bytes(&eight);
}
