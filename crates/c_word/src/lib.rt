// Document 02, [3], for callers in C: the word at the front of a part. include/vougecress.h documents it for its caller.
#![tactic(auto)]

ghost use Rattle.std.specs.Prelude.{◌≡◌};
ghost use Rattle.rules.specs.Word.{word_of};
ghost use Rattle.stream_bytes.specs.Answer.{answer_from};
ghost use Rattle.c_word.specs.Found.{found_from};

use refusals::Refusal;

#[repr(C)]
#[derive(Drop)]
pub struct Found {
    pub refusal: u32,
    pub word: u32,
}

// (The C interface has a struct for each answer, its fields with names of their own: each is laid out by itself.)
impl From<Result<u32, Refusal>> for Found {
    ghost from_gives = { λ answer result. result ≡ found_from (answer_from answer) };

    fn from(answer: Result<u32, Refusal>) -> Found {
        match answer {
            Ok(word) => Found { refusal: 0, word },
            Err(why) => Found {
                refusal: u32::from(why),
                word: 0,
            },
        }
    }
}

#[unsafe(no_mangle)]
pub extern "C" fn vougecress_word(part: &[u8]) -> Found
    ensures { result ≡ found_from (word_of part.now) }
{
    Found::from(stream_bytes::word(part))
}
