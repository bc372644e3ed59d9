// Document 01, "Job stream": the command at the front of a part of the stream, and the bytes that it takes; refusals 15, 16 and 17.
// Places (18) are judged by the job, which knows the panel.
#![tactic(auto)]

ghost use Rattle.std.specs.Prelude.{◌≡◌, ◌≤◌, length};
ghost use Rattle.rules.specs.Stream.{width_of, command_of, reading};
ghost use Rattle.stream_read.specs.Value.{byte_of, Reads, command_from, reading_from, taken_of};

use limits::MOST_STREAM;
use refusals::Refusal;
use stream_bytes::{two_bytes, two_words, word_at};

#[derive(Drop)]
pub enum Command {
    Unit {
        number: u32,
        turnover: u64,
        random: u32,
    },
    Draw {
        size: u8,
        start: u32,
    },
    Share {
        place: u8,
        share: u16,
    },
    Relative {
        place: u8,
        relative: u32,
    },
    Open {
        start: u64,
    },
    Quarter,
    Close,
}

// What a command byte asks for.
#[derive(Clone, Copy, Debug, PartialEq, Eq)]
pub enum Kind {
    Unit = 1,
    Draw = 2,
    Share = 3,
    Relative = 4,
    Open = 5,
    Quarter = 6,
    Close = 7,
}

impl TryFrom<u8> for Kind {
    type Error = Refusal;

    ghost try_from_gives = { Reads };

    fn try_from(k: u8) -> Result<Kind, Refusal> {
        match k {
            1 => Ok(Kind::Unit),
            2 => Ok(Kind::Draw),
            3 => Ok(Kind::Share),
            4 => Ok(Kind::Relative),
            5 => Ok(Kind::Open),
            6 => Ok(Kind::Quarter),
            7 => Ok(Kind::Close),
            _ => Err(Refusal::UnknownCommand),
        }
    }
}

impl Kind {
    // The bytes of such a command, its command byte among them.
    #[tactic(auto, unfolding(rules::specs::Stream::width_of, rules::specs::Stream::operands_of))]
    pub fn width(self) -> usize
        ensures { result ≡ width_of (byte_of self) }
    {
        match self {
            Kind::Unit => 17,
            Kind::Draw => 6,
            Kind::Share => 4,
            Kind::Relative => 6,
            Kind::Open => 9,
            Kind::Quarter => 1,
            Kind::Close => 1,
        }
    }
}

// The bytes of the command with the command byte k; a byte that asks for none stands alone.
// Over any byte and not a kind: the lists that C lends hold any byte.
pub fn width(k: u8) -> usize
    ensures { result ≡ width_of k }
{
    Kind::try_from(k).map_or(1, Kind::width)
}

// The command of a kind, its operands after its command byte in s.
fn operands(s: &[u8], kind: Kind) -> Command
    requires { width_of (byte_of kind) ≤ length s.now }
    ensures { command_from result ≡ command_of (byte_of kind) s.now }
{
    match kind {
        Kind::Unit => Command::Unit {
            number: word_at(s, 1),
            turnover: two_words(s, 5),
            random: word_at(s, 13),
        },
        Kind::Draw => Command::Draw {
            size: s[1],
            start: word_at(s, 2),
        },
        Kind::Share => Command::Share {
            place: s[1],
            share: two_bytes(s, 2),
        },
        Kind::Relative => Command::Relative {
            place: s[1],
            relative: word_at(s, 2),
        },
        Kind::Open => Command::Open {
            start: two_words(s, 1),
        },
        Kind::Quarter => Command::Quarter,
        Kind::Close => Command::Close,
    }
}

// The command at the front of s, none at its end, or a refusal.
pub fn read(s: &[u8]) -> Result<Option<Command>, Refusal>
    ensures { reading_from result ≡ reading s.now }
{
    if MOST_STREAM < s.len() {
        return Err(Refusal::StreamLength);
    }
    if s.is_empty() {
        return Ok(None);
    }
    let kind = Kind::try_from(s[0])?;
    if s.len() < kind.width() {
        return Err(Refusal::CutShort);
    }
    Ok(Some(operands(s, kind)))
}

// The bytes that `read` takes from the front of s.
pub fn taken(s: &[u8]) -> usize
    ensures { result ≡ taken_of s.now }
{
    // An arm each (tried with one for both): there the proof does not learn which of the two it was.
    match read(s) {
        Ok(Some(_)) => width(s[0]),
        Ok(None) => 0,
        Err(_) => 0,
    }
}
