// Document 01, "Job stream": a line of a letter and one or two numbers in decimal, laid into a lent buffer with the room.
#![tactic(auto)]

ghost use Rattle.std.specs.Prelude.{◌∷◌, [], ◌+◌, ◌≤◌, length};
ghost use Rattle.rules.specs.Lines.{line_of, line_of2};
ghost use Rattle.text_decimal.specs.Put.{digits_of, field_of, start_of, Put};
ghost use Rattle.text_decimal.specs.Wrote.{Room, Wrote};

// Lays the digits of n from the place at on, and answers the place after them.
// By a place and not a writer: where the place stands in memory each digit waits for the one before.
fn put_digits(out: &mut [u8], at: usize, n: u64) -> usize
    requires { at + length (digits_of n) ≤ length out.old }
    ensures { Put at (digits_of n) out.old out.new result }
{
    if n < 10 {
        out[at] = b'0' + n as u8;
        return at + 1;
    }
    let last = put_digits(out, at, n / 10);
    out[last] = b'0' + (n % 10) as u8;
    last + 1
}

// A lent buffer, and the place that the next byte is laid at.
#[derive(Drop)]
pub struct Writer<'a> {
    pub out: &'a mut [u8],
    pub at: usize,
}

impl<'a> Writer<'a> {
    // Lays a byte.
    pub fn byte(&mut self, b: u8)
        requires { Room self.old 1 }
        ensures { Wrote self.old (b ∷ []) self.new }
    {
        self.out[self.at] = b;
        self.at += 1;
    }

    // Lays the digits of n.
    pub fn decimal(&mut self, n: u64)
        requires { Room self.old (length (digits_of n)) }
        ensures { Wrote self.old (digits_of n) self.new }
    {
        self.at = put_digits(self.out, self.at, n);
    }

    // Lays a space and the digits of n.
    fn field(&mut self, n: u64)
        requires { Room self.old (length (field_of n)) }
        ensures { Wrote self.old (field_of n) self.new }
    {
        self.byte(b' ');
        self.decimal(n);
    }

    // Lays a letter, a space and the digits of n.
    fn start(&mut self, letter: u8, n: u64)
        requires { Room self.old (length (start_of letter n)) }
        ensures { Wrote self.old (start_of letter n) self.new }
    {
        self.byte(letter);
        self.field(n);
    }

    // Lays a line of a letter and a number.
    pub fn line(&mut self, letter: u8, a: u64)
        requires { Room self.old (length (line_of letter a)) }
        ensures { Wrote self.old (line_of letter a) self.new }
    {
        self.start(letter, a);
        self.byte(b'\n');
    }

    // Lays a line of a letter and two numbers.
    pub fn line2(&mut self, letter: u8, first: u64, second: u64)
        requires { Room self.old (length (line_of2 letter first second)) }
        ensures { Wrote self.old (line_of2 letter first second) self.new }
    {
        self.start(letter, first);
        self.field(second);
        self.byte(b'\n');
    }

    // Lays bytes as they are.
    pub fn bytes(&mut self, bytes: &[u8])
        requires { Room self.old (length bytes.now) }
        ensures { Wrote self.old bytes.now self.new }
    {
        let end = self.at + bytes.len();
        self.out[self.at..end].copy_from_slice(bytes);
        self.at = end;
    }
}
