// Document 02, [4]: a whole job stream read into six lent lists, operands in their widths, absent operands 0. The first of two passes only counts,
// since nothing is written before all is judged.
#![tactic(auto)]

ghost use Rattle.std.specs.Prelude.{◌≡◌, false, length, ltb};
ghost use Rattle.std.specs.List.{list_any};
ghost use Rattle.rules.specs.Refusals.{judged};
ghost use Rattle.rules.specs.Writing.{columns, whole_of, rows_read, too_short, written_over, read_all_answer, read_all_lists};
ghost use Rattle.stream_all.specs.Answer.{answer_from, lengths_of, places_of, SameLists};

use refusals::Refusal;
use stream_row::Row;

// Counts the commands of a stream, or finds the refusal at which the reader stops.
fn count(s: &[u8]) -> Result<usize, Refusal>
    ensures { answer_from result ≡ judged (whole_of s.now).stop (length (rows_read s.now)) }
{
    let mut t = s;
    let mut n: usize = 0;
    // Counted by hand: an iterator over the commands would carry the refusal in its items, and be no plainer than `?`.
    'commands: while let Some(_) = stream_read::read(t)? {
        t = stream_front::unread(t);
        n += 1;
    }
    Ok(n)
}

// The six lists that a stream is read into, one for each column, as the C interface lends them.
#[derive(Drop)]
pub struct Places<'a> {
    pub kinds: &'a mut [u8],
    pub sizes: &'a mut [u8],
    pub shares: &'a mut [u16],
    pub numbers: &'a mut [u32],
    pub randoms: &'a mut [u32],
    pub amounts: &'a mut [u64],
}

impl<'a> Places<'a> {
    // Whether one of the lists has fewer than n places.
    fn are_short(&self, n: usize) -> bool
        ensures { result ≡ list_any (λ length. ltb length n) (lengths_of (places_of self.now)) }
    {
        let lengths = [
            self.kinds.len(),
            self.sizes.len(),
            self.shares.len(),
            self.numbers.len(),
            self.randoms.len(),
            self.amounts.len(),
        ];
        lengths.iter().any(|length| *length < n)
    }
}

// Lays the commands of a stream in six lists with the room.
fn fill(s: &[u8], places: &mut Places)
    requires { too_short (length (rows_read s.now)) (places_of places.old) ≡ false }
    ensures lists_after { places_of places.new ≡ written_over 0 (columns (rows_read s.now)) (places_of places.old) }
    ensures same { SameLists places.old places.new }
{
    let mut t = s;
    let mut i: usize = 0;
    // An arm each, and the place counted by hand: at a `while let Ok(Some(..))` or an arm for two, the proof does not learn which reading ended it.
    'commands: loop {
        match stream_read::read(t) {
            Err(_) => return,
            Ok(None) => return,
            Ok(Some(command)) => {
                let row = Row::from(command);
                places.kinds[i] = row.kind;
                places.sizes[i] = row.size;
                places.shares[i] = row.share;
                places.numbers[i] = row.number;
                places.randoms[i] = row.random;
                places.amounts[i] = row.amount;
                t = stream_front::unread(t);
                i += 1;
            }
        }
    }
}

// Reads a whole stream into the first places of six lists; all is judged before a place is written.
pub fn read_all(s: &[u8], places: &mut Places) -> Result<usize, Refusal>
    ensures result_value { answer_from result ≡ read_all_answer s.now (places_of places.old) }
    ensures lists_after { places_of places.new ≡ read_all_lists s.now (places_of places.old) }
    ensures same { SameLists places.old places.new }
{
    let n = count(s)?;
    if places.are_short(n) {
        return Err(Refusal::ResultBuffer);
    }
    fill(s, places);
    Ok(n)
}
