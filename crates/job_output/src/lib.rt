// Document 01, "Job stream": all that a stream prints, laid into a lent buffer. The first of two passes over the turns (`job_turn`) only counts, since a
// buffer that is too short is to stay as it was; the count is an answer of its own.
#![tactic(auto)]

ghost use Rattle.std.specs.Prelude.{◌≡◌, ◌≤◌, length, take};
ghost use Rattle.rules.specs.Job.{output};
ghost use Rattle.text_lines.specs.Laid.{panel_room};
ghost use Rattle.job_output.specs.Printed.{print_answer, printed_on, answer_from, fitted, Passed};

use job_text::TEXT_ROOM;
use job_turn::Turned;
use refusals::Refusal;

// Lays the first count bytes of a turn's text from the place at on, if they have room.
// No writer: what has no room is counted all the same, so that the place may lie beyond the buffer.
fn lay(text: &[u8; TEXT_ROOM], count: usize, out: &mut [u8], at: usize)
    requires { count ≤ length text.now }
    ensures { (count ≤ panel_room) × (out.new ≡ fitted at (take count text.now) out.old) }
{
    if out.len() < at {
        return;
    }
    if out.len() - at < count {
        return;
    }
    out[at..at + count].copy_from_slice(&text[..count]);
}

// Does the commands of a stream in turn, lays the text of each behind the one before as long as there is room, and answers the bytes of all.
fn pass(stream: &[u8], out: &mut [u8]) -> usize
    ensures { Passed stream.now out.old out.new result }
{
    let mut text = [0; TEXT_ROOM];
    let mut unread = stream;
    let mut turned = Turned {
        job: job_state::empty(),
        count: 0,
        more: true,
    };
    let mut at: usize = 0;
    loop {
        turned = job_turn::turn(stream.len(), unread, turned.job, &mut text);
        lay(&text, turned.count, out, at);
        at += turned.count;
        if !turned.more {
            return at;
        }
        unread = stream_front::unread(unread);
    }
}

// The bytes of all that a stream prints, and so of the buffer that `print` takes.
pub fn count(stream: &[u8]) -> usize
    ensures { result ≡ length (output stream.now) }
{
    pass(stream, &mut [])
}

// The whole text of a stream at the front of a lent buffer.
pub fn print(stream: &[u8], out: &mut [u8]) -> Result<usize, Refusal>
    ensures result_value { answer_from result ≡ print_answer stream.now out.old }
    ensures out_after { out.new ≡ printed_on stream.now out.old }
{
    let bytes = count(stream);
    if out.len() < bytes {
        return Err(Refusal::ResultBuffer);
    }
    pass(stream, out);
    Ok(bytes)
}
