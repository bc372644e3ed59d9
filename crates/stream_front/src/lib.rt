// Document 01, "Job stream": "the reader hands back the rest after it", the unread part of the caller's stream beside the reading.
// `stream_read` judges; the functions over the struct that holds the part only call and hand on. `reading_at` and `unread` have plain parameters and results.
#![tactic(auto)]

ghost use Rattle.std.specs.Prelude.{◌≡◌};
ghost use Rattle.rules.specs.Stream.{reading, rest_of};
ghost use Rattle.stream_read.specs.Value.{reading_from};

use refusals::Refusal;
use stream_read::Command;

// What stands at the front of a part of the stream, and the unread part after it.
#[derive(Drop)]
pub struct Front<'a> {
    pub reading: Result<Option<Command>, Refusal>,
    pub rest: &'a [u8],
}

// What follows the first command of a part; all of it where none was read.
fn rest(part: &[u8]) -> &[u8]
    ensures { result.now ≡ rest_of part.now }
{
    let n = stream_read::taken(part);
    &part[n..]
}

// The reading at the front of s and the rest, at once.
pub fn read_front<'a>(s: &'a [u8]) -> Front<'a>
    ensures { (reading_from result.reading ≡ reading s.now) × (result.rest.now ≡ rest_of s.now) }
{
    let found = stream_read::read(s);
    let after = rest(s);
    Front {
        reading: found,
        rest: after,
    }
}

// The reading alone.
pub fn reading_at<'a>(s: &'a [u8]) -> Result<Option<Command>, Refusal>
    ensures { reading_from result ≡ reading s.now }
{
    let both = read_front(s);
    both.reading
}

// The rest alone.
pub fn unread<'a>(s: &'a [u8]) -> &'a [u8]
    ensures { result.now ≡ rest_of s.now }
{
    let front = read_front(s);
    front.rest
}
