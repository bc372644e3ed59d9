// Document 02, [4]: a list of commands, operands in their widths, written as a job stream. The elements of each list have exactly their operand's width,
// so that no operand can be too large.
#![tactic(auto)]

ghost use Rattle.std.specs.Prelude.{◌≡◌, ◌++◌, map, ◌+◌, ◌<◌, ◌≤◌, min, not, length, get_or, eqb};
ghost use Rattle.std.specs.List.{list_any};
ghost use Rattle.rules.specs.Limits.{most_stream};
ghost use Rattle.rules.specs.Tests.{outside};
ghost use Rattle.rules.specs.Lists.{sum};
ghost use Rattle.rules.specs.Stream.{width_of};
ghost use Rattle.rules.specs.Writing.{bytes_with, command_bytes, rows_in, stream_in, write_refusal, write_answer, write_bytes};
ghost use Rattle.refusals.specs.Number.{refusal_of};
ghost use Rattle.text_decimal.specs.Wrote.{Room, Wrote};
ghost use Rattle.stream_row.specs.Value.{row_from};
ghost use Rattle.stream_write.specs.Answer.{answer_from, lists_of, lengths_of, OneLength, blank};

use limits::MOST_STREAM;
use refusals::Refusal;
use stream_put::{put_two_bytes, put_two_words, put_word};
use stream_read::{Kind, width};
use stream_row::Row;
use text_decimal::Writer;

// The six lists of a writer, one for each column as the C interface lends them: command bytes, and the operands.
#[derive(Clone, Copy)]
pub struct Lists<'a> {
    pub kinds: &'a [u8],
    pub sizes: &'a [u8],
    pub shares: &'a [u16],
    pub numbers: &'a [u32],
    pub randoms: &'a [u32],
    pub amounts: &'a [u64],
}

impl<'a> Lists<'a> {
    // Whether one of the lists is not as long as the first.
    fn are_unequal(&self) -> bool
        ensures { result ≡ list_any
            (λ n. not (eqb n (length self.now.kinds.now)))
            (lengths_of (lists_of self.now)) }
    {
        let n = self.kinds.len();
        let lengths = [
            self.sizes.len(),
            self.shares.len(),
            self.numbers.len(),
            self.randoms.len(),
            self.amounts.len(),
        ];
        lengths.iter().any(|length| *length != n)
    }

    // The command at place i.
    fn row(&self, i: usize) -> Row
        requires { OneLength (lists_of self.now) × (i < length self.now.kinds.now) }
        ensures { row_from result ≡ get_or (rows_in (lists_of self.now)) i blank }
    {
        Row {
            kind: self.kinds[i],
            size: self.sizes[i],
            share: self.shares[i],
            number: self.numbers[i],
            random: self.randoms[i],
            amount: self.amounts[i],
        }
    }
}

// The bytes that the commands need, counted no further than one over the limit.
fn needed(kinds: &[u8]) -> usize
    ensures { result ≡ min (sum (map width_of kinds.now)) (most_stream + 1) }
{
    let mut bytes: usize = 0;
    for kind in kinds {
        bytes += width(*kind);
        if MOST_STREAM < bytes {
            return MOST_STREAM + 1;
        }
    }
    bytes
}

// Whether a command byte is not 1 to 7.
fn is_unknown(k: u8) -> bool
    ensures { result ≡ outside 1 7 k }
{
    Kind::try_from(k).is_err()
}

fn has_unknown(kinds: &[u8]) -> bool
    ensures { result ≡ list_any (outside 1 7) kinds.now }
{
    kinds.iter().any(|k| is_unknown(*k))
}

// 27 for unequal lists, 15, 16, and 27 for a short buffer.
fn judge(lists: &Lists, out: &[u8]) -> Result<(), Refusal>
    ensures { refusal_of result ≡ write_refusal (lists_of lists.now) out.now }
{
    if lists.are_unequal() {
        return Err(Refusal::Writing);
    }
    let bytes = needed(lists.kinds);
    if MOST_STREAM < bytes {
        return Err(Refusal::StreamLength);
    }
    if has_unknown(lists.kinds) {
        return Err(Refusal::UnknownCommand);
    }
    if out.len() < bytes {
        return Err(Refusal::Writing);
    }
    Ok(())
}

// Lays the operands of a unit.
fn put_unit(w: &mut Writer, number: u32, amount: u64, random: u32)
    requires { Room w.old 16 }
    ensures { Wrote w.old (bytes_with 4 number ++ (bytes_with 8 amount ++ bytes_with 4 random)) w.new }
{
    put_word(w, number);
    put_two_words(w, amount);
    put_word(w, random);
}

// Lays a size or a place, and a start or a relative.
fn put_number(w: &mut Writer, size: u8, number: u32)
    requires { Room w.old 5 }
    ensures { Wrote w.old (bytes_with 1 size ++ bytes_with 4 number) w.new }
{
    w.byte(size);
    put_word(w, number);
}

// Lays a place and a share.
fn put_share(w: &mut Writer, place: u8, share: u16)
    requires { Room w.old 3 }
    ensures { Wrote w.old (bytes_with 1 place ++ bytes_with 2 share) w.new }
{
    w.byte(place);
    put_two_bytes(w, share);
}

// Lays a command. An arm each (tried with one for several kinds): there the proof does not learn which kind it was.
fn put_command(w: &mut Writer, row: Row)
    requires { Room w.old (width_of row.kind) }
    ensures { Wrote w.old (command_bytes (row_from row)) w.new }
{
    w.byte(row.kind);
    match Kind::try_from(row.kind) {
        Ok(Kind::Unit) => put_unit(w, row.number, row.amount, row.random),
        Ok(Kind::Draw) => put_number(w, row.size, row.number),
        Ok(Kind::Share) => put_share(w, row.size, row.share),
        Ok(Kind::Relative) => put_number(w, row.size, row.number),
        Ok(Kind::Open) => put_two_words(w, row.amount),
        Ok(Kind::Quarter) => {}
        Ok(Kind::Close) => {}
        Err(_) => {}
    }
}

// Lays the commands of lists of one length.
fn put_all(lists: &Lists, w: &mut Writer)
    requires { OneLength (lists_of lists.now) × Room w.old (length (stream_in (lists_of lists.now))) }
    ensures { Wrote w.old (stream_in (lists_of lists.now)) w.new }
{
    for i in 0..lists.kinds.len() {
        put_command(w, lists.row(i));
    }
}

// Writes the stream of a list of commands at the front of the buffer; all is judged before a byte is written.
pub fn write(lists: &Lists, out: &mut [u8]) -> Result<usize, Refusal>
    ensures result_value { answer_from result ≡ write_answer (lists_of lists.now) out.old }
    ensures out_after { out.new ≡ write_bytes (lists_of lists.now) out.old }
{
    judge(lists, out)?;
    let mut w = Writer { out, at: 0 };
    put_all(lists, &mut w);
    Ok(w.at)
}
