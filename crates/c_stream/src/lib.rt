// The reader of a job stream, and what a whole stream prints, on lent bytes.
#![tactic(auto)]

ghost use Rattle.std.specs.Prelude.{◌≡◌, length, drop};
ghost use Rattle.rules.specs.Stream.{reading, rest_of};
ghost use Rattle.stream_read.specs.Value.{taken_of};
ghost use Rattle.rules.specs.Job.{output};
ghost use Rattle.job_output.specs.Printed.{answer_from, print_answer, printed_on};
ghost use Rattle.c_stream.specs.Streams.{read_from, ran_from};

use c_values::reads::{Read, command_read, nothing_read};
use refusals::Refusal;

// The answer of a run: the bytes of the text that stands in the buffer.
#[repr(C)]
#[derive(Drop)]
pub struct Run {
    pub refusal: u32,
    pub length: u64,
}

// (The C interface has a struct for each answer, its fields with names of their own: each is laid out by itself.)
impl From<Result<usize, Refusal>> for Run {
    ghost from_gives = { λ answer result. result ≡ ran_from (answer_from answer) };

    fn from(answer: Result<usize, Refusal>) -> Run {
        match answer {
            Ok(bytes) => Run {
                refusal: 0,
                length: bytes as u64,
            },
            Err(why) => Run {
                refusal: u32::from(why),
                length: 0,
            },
        }
    }
}

#[unsafe(no_mangle)]
pub extern "C" fn vougecress_read(stream: &[u8]) -> Read
    ensures value { result ≡ read_from (reading stream.now) (taken_of stream.now) }
    ensures stream_value { rest_of stream.now ≡ drop result.taken stream.now }
{
    let taken = stream_read::taken(stream);
    match stream_read::read(stream) {
        Ok(Some(command)) => command_read(command, taken),
        Ok(None) => nothing_read(0),
        Err(why) => nothing_read(u32::from(why)),
    }
}

#[unsafe(no_mangle)]
pub extern "C" fn vougecress_run(stream: &[u8], out: &mut [u8]) -> Run
    ensures value { result ≡ ran_from (print_answer stream.now out.old) }
    ensures out_after { out.new ≡ printed_on stream.now out.old }
{
    Run::from(job_output::print(stream, out))
}

// The bytes of the text that a run lays. It only counts, and never refuses.
#[unsafe(no_mangle)]
pub extern "C" fn vougecress_run_length(stream: &[u8]) -> u64
    ensures { result ≡ length (output stream.now) }
{
    job_output::count(stream) as u64
}
