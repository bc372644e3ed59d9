// Document 02, [12]: texts in columns, laid into a lent buffer with the room: a name to the left, a number with decimals to the right.
#![tactic(auto)]

ghost use Rattle.std.specs.Prelude.{◌≡◌, ◌+◌, ◌/◌, ◌^◌, ◌≤◌, ◌<◌, length, replicate};
ghost use Rattle.rules.specs.Limits.{name_columns, number_columns, figure_decimals};
ghost use Rattle.rules.specs.Sheet.{last_digits, with_decimals, left_in, right_in};
ghost use Rattle.text_decimal.specs.Put.{digits_of, Put};
ghost use Rattle.text_decimal.specs.Wrote.{Room, Wrote};
ghost use Rattle.text_columns.specs.Signed.{sign_of, signed_text};

use limits::{NAME_COLUMNS, NUMBER_COLUMNS};
use text_decimal::Writer;

// The digits of a number.
fn digits(n: u64) -> usize
    ensures { result ≡ length (digits_of n) }
{
    n.max(1).ilog10() as usize + 1
}

// The columns of a number of k decimals and this whole part, its sign among them.
fn columns(negative: bool, whole: u64, k: usize) -> usize
    requires { (whole < 10000) × (k ≤ figure_decimals) }
    ensures { result ≡ length (sign_of negative) + (length (digits_of whole) + 1 + k) }
{
    usize::from(negative) + digits(whole) + 1 + k
}

// Lays spaces, at most as many as a name has columns.
fn put_spaces(w: &mut Writer, count: usize)
    requires { (count ≤ name_columns) × Room w.old count }
    ensures { Wrote w.old (replicate count 32) w.new }
{
    let spaces = [b' '; NAME_COLUMNS];
    w.bytes(&spaces[..count]);
}

// Lays the last k digits of n from the place at on, zeros among them, and answers the place after them.
// By a place and not a writer, as in `text_decimal`: where the place stands in memory each digit waits for the one before.
fn put_last_digits(out: &mut [u8], at: usize, n: u64, k: usize) -> usize
    requires { at + k ≤ length out.old }
    ensures { Put at (last_digits k n) out.old out.new result }
{
    if k == 0 {
        return at;
    }
    let last = put_last_digits(out, at, n / 10, k - 1);
    out[last] = b'0' + (n % 10) as u8;
    last + 1
}

// Lays n, which counts the last of k decimals; a whole is so many units.
fn put_with_decimals(w: &mut Writer, n: u64, unit: u64, k: usize)
    requires { (unit ≡ 10 ^ k) × (0 < unit) × Room w.old (length (with_decimals k n)) }
    ensures { Wrote w.old (with_decimals k n) w.new }
{
    w.decimal(n / unit);
    w.byte(b'.');
    w.at = put_last_digits(w.out, w.at, n, k);
}

// Lays a minus sign where one is asked for.
fn put_sign(w: &mut Writer, negative: bool)
    requires { Room w.old (length (sign_of negative)) }
    ensures { Wrote w.old (sign_of negative) w.new }
{
    if negative {
        w.byte(b'-');
    }
}

// Lays a text to the left in the columns of a name.
pub fn put_left(w: &mut Writer, text: &[u8])
    requires { (length text.now ≤ name_columns) × Room w.old name_columns }
    ensures { Wrote w.old (left_in name_columns text.now) w.new }
{
    w.bytes(text);
    put_spaces(w, NAME_COLUMNS - text.len());
}

// Lays a number to the right in its columns: its sign, and n with k decimals.
pub fn put_right(w: &mut Writer, negative: bool, n: u64, unit: u64, k: usize)
    requires { (unit ≡ 10 ^ k) × (0 < unit) × (n / unit < 10000) × (k ≤ figure_decimals) × Room w.old number_columns }
    ensures { Wrote w.old (right_in number_columns (signed_text negative k n)) w.new }
{
    let size = columns(negative, n / unit, k);
    put_spaces(w, NUMBER_COLUMNS - size);
    put_sign(w, negative);
    put_with_decimals(w, n, unit, k);
}
