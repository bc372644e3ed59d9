// Document 02, [14]: a register of comma lines, imported into a lent list of units or into three lent lists.
// All lines are judged before the first write.
#![tactic(auto)]

ghost use Rattle.std.specs.Prelude.{◌≡◌, ◌≤◌, length};
ghost use Rattle.rules.specs.Refusals.{written};
ghost use Rattle.rules.specs.Register.{Row as RulesRow, line_at, row_at, imported, import_count, column_of, room_of, imported_numbers, imported_turnovers, imported_randoms};
ghost use Rattle.frame_lines.specs.Value.{line_from, row_from, imported_from, units_after};

use limits::{MOST_LONG, MOST_SHORT};
use text_field::Cursor;

// C shares this layout.
#[repr(C)]
#[derive(Clone, Copy)]
pub struct Unit {
    pub number: u32,
    pub turnover: u64,
    pub random: u32,
}

// The unit of a line, and the offset of the next line.
#[derive(Clone, Copy)]
pub struct Row {
    pub unit: Unit,
    pub next: usize,
}

// 34 with the offset of the first bad line; 35.
#[derive(Clone, Copy, Debug, PartialEq, Eq)]
pub enum ImportError {
    BadLine(usize),
    TooMany,
}

// The line that begins at an offset, if it is of the form.
pub fn read_line(t: &[u8], at: usize) -> Option<Row>
    ensures { line_from result ≡ line_at t.now at }
{
    let mut line = Cursor { text: t, at };
    let number = line.field_and_comma(MOST_SHORT)?;
    let turnover = line.field_and_comma(MOST_LONG)?;
    let random = line.field_and_end(MOST_SHORT)?;
    let unit = Unit {
        number: number as u32,
        turnover,
        random: random as u32,
    };
    Some(Row {
        unit,
        next: line.at,
    })
}

// The line that begins at an offset; where it is not of the form, a row of zeros that stays at the offset.
pub fn read_row(t: &[u8], at: usize) -> Row
    ensures { row_from result ≡ row_at t.now at }
{
    let unit = Unit {
        number: 0,
        turnover: 0,
        random: 0,
    };
    read_line(t, at).unwrap_or(Row { unit, next: at })
}

// The count of units for a text and a list of so many places: all lines are read, then 35 is asked.
pub fn judge(t: &[u8], places: usize) -> Result<usize, ImportError>
    ensures { imported_from result ≡ imported t.now places }
{
    let mut at: usize = 0;
    let mut lines: usize = 0;
    // The offset is no count: each line says where the next one begins.
    while at < t.len() {
        let Some(row) = read_line(t, at) else {
            return Err(ImportError::BadLine(at));
        };
        at = row.next;
        lines += 1;
    }
    if places < lines {
        return Err(ImportError::TooMany);
    }
    Ok(lines)
}

// How many units an answer fills.
pub fn taken(answer: Result<usize, ImportError>) -> usize
    ensures { result ≡ import_count (imported_from answer) }
{
    answer.unwrap_or(0)
}

// Each line fills one unit of the list, in the order of the text.
pub fn import_units(text: &[u8], list: &mut [Unit]) -> Result<usize, ImportError>
    ensures { (imported_from result ≡ imported text.now (length list.old))
        × (list.new ≡ units_after text.now list.old) }
{
    let answer = judge(text, list.len());
    let n = taken(answer);
    let mut at: usize = 0;
    for i in 0..n {
        let row = read_row(text, at);
        list[i] = row.unit;
        at = row.next;
    }
    answer
}

// Lays the first `count` lines into the three lists.
// No struct of the three: the definitions take them one by one, so each clause would only name them one field deeper.
fn fill(text: &[u8], count: usize, numbers: &mut [u32], turnovers: &mut [u64], randoms: &mut [u32])
    requires { (count ≤ length numbers.old) × (count ≤ length turnovers.old) × (count ≤ length randoms.old) }
    ensures numbers_after { numbers.new ≡ written 0 (column_of (λ (row : RulesRow). row.number) count text.now 0) numbers.old }
    ensures turnovers_after { turnovers.new ≡ written 0 (column_of (λ (row : RulesRow). row.turnover) count text.now 0) turnovers.old }
    ensures randoms_after { randoms.new ≡ written 0 (column_of (λ (row : RulesRow). row.random) count text.now 0) randoms.old }
{
    let mut at: usize = 0;
    for i in 0..count {
        let found = read_row(text, at);
        numbers[i] = found.unit.number;
        turnovers[i] = found.unit.turnover;
        randoms[i] = found.unit.random;
        at = found.next;
    }
}

// The same into three lists, as the draw takes them.
pub fn import_lists(
    text: &[u8],
    numbers: &mut [u32],
    turnovers: &mut [u64],
    randoms: &mut [u32],
) -> Result<usize, ImportError>
    ensures result_value { imported_from result ≡ imported text.now (room_of numbers.old turnovers.old randoms.old) }
    ensures numbers_after { numbers.new ≡ imported_numbers text.now numbers.old turnovers.old randoms.old }
    ensures turnovers_after { turnovers.new ≡ imported_turnovers text.now numbers.old turnovers.old randoms.old }
    ensures randoms_after { randoms.new ≡ imported_randoms text.now numbers.old turnovers.old randoms.old }
{
    let places = numbers.len().min(turnovers.len()).min(randoms.len());
    let answer = judge(text, places);
    fill(text, taken(answer), numbers, turnovers, randoms);
    answer
}
