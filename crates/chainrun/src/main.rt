// The program `chainrun` (document 01, "Job stream"): reads a stream from standard input and prints the lines of each command as it is done,
// until the end or the first refusal. What all turns print is the crate `job_turn`, proofs/Whole.antt.
// A program has no exit status: a read or a write that fails is told on standard error, with the system's reason, and ends the run.
#![tactic(auto)]

ghost use Rattle.std.specs.Prelude.{◌≡◌, suc, ◌≤◌, length, IfOk};
ghost use Rattle.rules.specs.Limits.{most_stream};

use job_text::TEXT_ROOM;
use job_turn::Turned;
use std::env::{Env, FillError};
use std::io;
use std::io::{Print, Read};

// The longest stream and one byte more, by which a longer one is known (`job_turn`, proofs/Whole.antt, `cut`).
const STREAM_ROOM: usize = 32769;

fn stream_room() -> [u8; STREAM_ROOM]
    ensures { suc most_stream ≡ length result }
{
    [0; STREAM_ROOM]
}

// Reads until the buffer is full, the input ends or a read fails: how many bytes it put at the start of the buffer.
fn read_stream<R: Read>(input: &mut R, bytes: &mut [u8]) -> io::Result<usize>
    ensures { IfOk result (λ n. n ≤ length bytes.new) }
{
    let mut done: usize = 0;
    while done < bytes.len() {
        let count = input.read(&mut bytes[done..])?;
        if count == 0 {
            return Ok(done);
        }
        done += count;
    }
    Ok(done)
}

// The system's reason, without the number that std puts behind it.
fn reason_of(said: &str) -> &str {
    said.split_once(" (os error ")
        .map_or(said, |(reason, _)| reason)
}

// Tells a failure on standard error. Where nobody can be told, nothing is.
fn tell(rt: &HostRuntime, what: &str, why: io::Error) {
    let Ok(said) = format!(in rt.alloc(); "{why}") else {
        let _ = eprintln!(rt; "chainrun: cannot {what}: {why}");
        return;
    };
    let reason = reason_of(said.as_str());
    let _ = eprintln!(rt; "chainrun: cannot {what}: {reason}");
}

// Whether anything stands behind the program's name.
fn has_arguments(rt: &HostRuntime) -> bool {
    let mut start = [0u8; 1];
    !matches!(rt.arg(1, &mut start), Err(FillError::NotPresent))
}

// Does the commands of a stream in turn, one write for the text of each.
fn run_stream(rt: &HostRuntime, stream: &[u8]) -> io::Result<()> {
    let mut text = [0; TEXT_ROOM];
    let mut unread = stream;
    let mut turned = Turned {
        job: job_state::empty(),
        count: 0,
        more: true,
    };
    loop {
        turned = job_turn::turn(stream.len(), unread, turned.job, &mut text);
        rt.write_all(&text[..turned.count])?;
        if !turned.more {
            return Ok(());
        }
        unread = stream_front::unread(unread);
    }
}

fn main(rt: HostRuntime) {
    if has_arguments(&rt) {
        let _ = eprintln!(rt;
            "chainrun: takes no arguments; it reads a stream from standard input"
        );
        return;
    }
    let mut bytes = stream_room();
    match read_stream(&mut rt.stdin(), &mut bytes) {
        Ok(count) => {
            if let Err(why) = run_stream(&rt, &bytes[..count]) {
                tell(&rt, "write standard output", why);
            }
        }
        Err(why) => tell(&rt, "read standard input", why),
    }
}
