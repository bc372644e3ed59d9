// Document 02, [12]: one line of the quarterly sheet, laid into the first bytes of a lent buffer, and the change that it prints.
#![tactic(auto)]

ghost use Rattle.std.specs.Prelude.{◌≡◌, ◌≤◌, length};
ghost use Rattle.rules.specs.Limits.{name_columns, line_bytes, highest_index, lowest_printable, highest_printable};
ghost use Rattle.rules.specs.Tests.{outside};
ghost use Rattle.rules.specs.Lists.{any_of};
ghost use Rattle.rules.specs.Sheet.{bad_name, bad_line, sheet_answer, sheet_bytes};
ghost use Rattle.text_decimal.specs.Wrote.{Room, Wrote};
ghost use Rattle.text_change.specs.Values.{Sized};
ghost use Rattle.text_sheet.specs.Answer.{pieces_of, answer_from};

use limits::{
    CHANGE_DECIMALS, FIGURE_DECIMALS, HIGHEST_PRINTABLE, LINE_BYTES, LOWEST_PRINTABLE,
    NAME_COLUMNS, bad_index,
};
use refusals::Refusal;
use text_change::{Change, moved};
use text_columns::{put_left, put_right};
use text_decimal::Writer;

// A figure in units of its last decimal has this many in an index point, and a change this many in a percent.
const FIGURE_UNIT: u64 = 10_000_000;

const CHANGE_UNIT: u64 = 100;

fn unprintable(b: u8) -> bool
    ensures { result ≡ outside lowest_printable highest_printable b }
{
    !(LOWEST_PRINTABLE..=HIGHEST_PRINTABLE).contains(&b)
}

// Whether a byte of the name is not printable.
fn any_unprintable(name: &[u8]) -> bool
    ensures { result ≡ any_of (outside lowest_printable highest_printable) name.now }
{
    name.iter().any(|b| unprintable(*b))
}

fn bad_name(name: &[u8]) -> bool
    ensures { result ≡ bad_name name.now }
{
    !(1..=NAME_COLUMNS).contains(&name.len()) || any_unprintable(name)
}

// 32.
fn bad_line(name: &[u8], new: u64, old: u64, room: usize) -> bool
    ensures { result ≡ bad_line name.now new old room }
{
    bad_name(name) || bad_index(new) || bad_index(old) || room < LINE_BYTES
}

// Lays the line: name, figure, change in hundredths, line feed.
fn lay(w: &mut Writer, name: &[u8], new: u64, change: i64)
    requires { (length name.now ≤ name_columns) × (new ≤ highest_index) × Sized change × Room w.old line_bytes }
    ensures { Wrote w.old (pieces_of name.now new change) w.new }
{
    put_left(w, name);
    put_right(w, false, new, FIGURE_UNIT, FIGURE_DECIMALS);
    let size = change.unsigned_abs();
    put_right(w, change < 0, size, CHANGE_UNIT, CHANGE_DECIMALS);
    w.byte(b'\n');
}

// One line in the first 49 bytes of the buffer: the sector's name, its figure, and the change against the year before.
pub fn line(name: &[u8], new: u64, old: u64, out: &mut [u8]) -> Result<Change, Refusal>
    ensures result_value { answer_from result ≡ sheet_answer name.now new old out.old }
    ensures out_after { out.new ≡ sheet_bytes name.now new old out.old }
{
    if bad_line(name, new, old, out.len()) {
        return Err(Refusal::SheetLine);
    }
    let change = moved(new, old);
    let mut w = Writer { out, at: 0 };
    lay(&mut w, name, new, change.hundredths);
    Ok(change)
}
