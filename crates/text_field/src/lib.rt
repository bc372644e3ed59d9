// Document 02, [14]: a decimal field of a text, with the comma or the end of line that must follow it.
#![tactic(auto)]

ghost use Rattle.std.specs.Prelude.{◌≡◌, ◌<◌, ◌+◌, ◌^◌};
ghost use Rattle.rules.specs.Register.{sized, field_at, comma_at, end_at, field_and_comma, field_and_end};
ghost use Rattle.text_field.specs.Value.{Read};

use limits::MOST_FIELD;

// A text, and the offset that is read next; where a part is not of the form, the offset stays.
#[derive(Drop)]
pub struct Cursor<'a> {
    pub text: &'a [u8],
    pub at: usize,
}

impl<'a> Cursor<'a> {
    // A number of so many digits, which stand next.
    fn sized(&mut self, v: u64, digits: usize) -> Option<u64>
        requires { self.old.at + digits < 2 ^ 64 }
        ensures { Read self.old self.new result (sized v self.old.at digits) }
    {
        if !(1..=MOST_FIELD).contains(&digits) {
            return None;
        }
        self.at += digits;
        Some(v)
    }

    // The field that stands next. A number that passes `most` is left at once, before a step could wrap.
    fn number(&mut self, most: u64) -> Option<u64>
        ensures { Read self.old self.new result (field_at self.old.text.now self.old.at most) }
    {
        let t = self.text;
        let at = self.at;
        let tenth = most / 10;
        let mut v: u64 = 0;
        for i in at..t.len() {
            let c = t[i];
            if !c.is_ascii_digit() {
                return self.sized(v, i - at);
            }
            if tenth < v {
                return None;
            }
            let d = u64::from(c - b'0');
            let tens = v * 10;
            if most - tens < d {
                return None;
            }
            v = tens + d;
        }
        self.sized(v, t.len().saturating_sub(at))
    }

    // The comma after a number.
    fn comma(&mut self, v: u64) -> Option<u64>
        ensures { Read self.old self.new result (comma_at self.old.text.now v self.old.at) }
    {
        match self.text.get(self.at) {
            Some(b',') => {
                self.at += 1;
                Some(v)
            }
            _ => None,
        }
    }

    // The end of line after a number: the end of the text, a line feed, or a carriage return and a line feed.
    fn line_end(&mut self, v: u64) -> Option<u64>
        ensures { Read self.old self.new result (end_at self.old.text.now v self.old.at) }
    {
        let t = self.text;
        let n = self.at;
        match t.get(n) {
            None if n == t.len() => {}
            Some(b'\n') => self.at = n + 1,
            Some(b'\r') if t.get(n + 1) == Some(&b'\n') => self.at = n + 2,
            _ => return None,
        }
        Some(v)
    }

    // A field and its comma: the number.
    pub fn field_and_comma(&mut self, most: u64) -> Option<u64>
        ensures { Read self.old self.new result (field_and_comma self.old.text.now self.old.at most) }
    {
        let at = self.at;
        let v = self.number(most)?;
        let part = self.comma(v);
        if part.is_none() {
            self.at = at;
        }
        part
    }

    // A field and the end of its line. Apart from the one above: a parameter for what must follow would be no plainer.
    pub fn field_and_end(&mut self, most: u64) -> Option<u64>
        ensures { Read self.old self.new result (field_and_end self.old.text.now self.old.at most) }
    {
        let at = self.at;
        let v = self.number(most)?;
        let part = self.line_end(v);
        if part.is_none() {
            self.at = at;
        }
        part
    }
}
