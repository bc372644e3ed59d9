// Document 01, "Job stream": big-endian operands of two, four and eight bytes. Document 02, [3]: those of four and eight a word at a time.
#![tactic(auto)]

ghost use Rattle.std.specs.Prelude.{◌≡◌, ◌+◌, ◌<◌, length};
ghost use Rattle.rules.specs.Stream.{big_endian};
ghost use Rattle.rules.specs.Word.{word_of};
ghost use Rattle.stream_bytes.specs.Answer.{answer_from};

use refusals::Refusal;

// The two bytes from i on, the first the highest.
pub fn two_bytes(s: &[u8], i: usize) -> u16
    requires { i + 1 < length s.now }
    ensures { result ≡ big_endian 2 s.now i }
{
    u16::from_be_bytes([s[i], s[i + 1]])
}

// The 32-bit word at the front of a part of any length, or 17 where fewer than four bytes are left.
pub fn word(part: &[u8]) -> Result<u32, Refusal>
    ensures { answer_from result ≡ word_of part.now }
{
    match part.first_chunk::<4>() {
        Some(bytes) => Ok(u32::from_be_bytes(*bytes)),
        None => Err(Refusal::CutShort),
    }
}

// The operand of four bytes from i on: the word of that part, which is never refused. A part of just four bytes spares the reader the test.
pub fn word_at(s: &[u8], i: usize) -> u32
    requires { i + 3 < length s.now }
    ensures { result ≡ big_endian 4 s.now i }
{
    word(&s[i..i + 4]).unwrap()
}

// The operand of eight bytes from i on: two such words, the upper first.
pub fn two_words(s: &[u8], i: usize) -> u64
    requires { i + 7 < length s.now }
    ensures { result ≡ big_endian 8 s.now i }
{
    let upper = word_at(s, i);
    let lower = word_at(s, i + 4);
    u64::from(upper) * 4294967296 + u64::from(lower)
}
