// Document 02, [4], for callers in C: a list of commands written as a job stream, and a whole stream read as such a list.
// include/vougecress.h documents both for their caller.
#![tactic(auto)]

ghost use Rattle.std.specs.Prelude.{◌≡◌};
ghost use Rattle.rules.specs.Writing.{lists, write_answer, write_bytes, read_all_answer, read_all_lists};
ghost use Rattle.stream_write.specs.Answer.{answer_from};
ghost use Rattle.c_write.specs.Written.{written_from, listed_from};

use refusals::Refusal;
use stream_all::Places;
use stream_write::Lists;

// The bytes of the stream that stands in the buffer.
#[repr(C)]
#[derive(Drop)]
pub struct Written {
    pub refusal: u32,
    pub length: u64,
}

// (The C interface has a struct for each answer, its fields with names of their own: each is laid out by itself.)
impl From<Result<usize, Refusal>> for Written {
    ghost from_gives = { λ answer result. result ≡ written_from (answer_from answer) };

    fn from(answer: Result<usize, Refusal>) -> Written {
        match answer {
            Ok(bytes) => Written {
                refusal: 0,
                length: bytes as u64,
            },
            Err(why) => Written {
                refusal: u32::from(why),
                length: 0,
            },
        }
    }
}

// The commands that stand in the lists.
#[repr(C)]
#[derive(Drop)]
pub struct Listed {
    pub refusal: u32,
    pub count: u64,
}

// (The C interface has a struct for each answer, its fields with names of their own: each is laid out by itself.)
impl From<Result<usize, Refusal>> for Listed {
    ghost from_gives = { λ answer result. result ≡ listed_from (answer_from answer) };

    fn from(answer: Result<usize, Refusal>) -> Listed {
        match answer {
            Ok(commands) => Listed {
                refusal: 0,
                count: commands as u64,
            },
            Err(why) => Listed {
                refusal: u32::from(why),
                count: 0,
            },
        }
    }
}

#[unsafe(no_mangle)]
pub extern "C" fn vougecress_write(
    kinds: &[u8],
    sizes: &[u8],
    shares: &[u16],
    numbers: &[u32],
    randoms: &[u32],
    amounts: &[u64],
    out: &mut [u8],
) -> Written
    ensures value { result ≡ written_from (write_answer
        (lists kinds.now sizes.now shares.now numbers.now randoms.now amounts.now)
        out.old) }
    ensures out_after { out.new ≡ write_bytes
        (lists kinds.now sizes.now shares.now numbers.now randoms.now amounts.now)
        out.old }
{
    let lists = Lists {
        kinds,
        sizes,
        shares,
        numbers,
        randoms,
        amounts,
    };
    Written::from(stream_write::write(&lists, out))
}

#[unsafe(no_mangle)]
pub extern "C" fn vougecress_read_all(
    stream: &[u8],
    kinds: &mut [u8],
    sizes: &mut [u8],
    shares: &mut [u16],
    numbers: &mut [u32],
    randoms: &mut [u32],
    amounts: &mut [u64],
) -> Listed
    ensures value { result ≡ listed_from (read_all_answer stream.now
        (lists kinds.old sizes.old shares.old numbers.old randoms.old amounts.old)) }
    ensures amounts_after { lists kinds.new sizes.new shares.new numbers.new randoms.new amounts.new
        ≡ read_all_lists stream.now
        (lists kinds.old sizes.old shares.old numbers.old randoms.old amounts.old) }
{
    let mut places = Places {
        kinds,
        sizes,
        shares,
        numbers,
        randoms,
        amounts,
    };
    Listed::from(stream_all::read_all(stream, &mut places))
}
