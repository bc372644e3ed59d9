// Document 01, "Job stream": one turn of a stream: the command at the front of the unread part is read and done, and its lines are laid into a
// lent buffer. A program loops over turns (specs/Run.antt); what all turns print is proofs/Whole.antt.
#![tactic(auto)]

ghost use Rattle.job_turn.specs.Turn.{Renders};

use job_state::Job;
use job_text::{TEXT_ROOM, continues, lay};

// The job after a turn, the bytes of its text, and whether there is a next turn.
// No Option: `more` stands beside values that are there either way, since the last turn too leaves a job and a text.
#[derive(Drop)]
pub struct Turned {
    pub job: Job,
    pub count: usize,
    pub more: bool,
}

// One turn at the unread part s of a stream of total bytes.
pub fn turn(total: usize, s: &[u8], job: Job, text: &mut [u8; TEXT_ROOM]) -> Turned
    ensures { Renders total s.now job result text.old text.new }
{
    let at = total.saturating_sub(s.len());
    match stream_front::reading_at(s) {
        Err(why) => Turned {
            job,
            count: text_lines::refusal_line(text, u32::from(why), at),
            more: false,
        },
        Ok(None) => Turned {
            job,
            count: 0,
            more: false,
        },
        Ok(Some(command)) => {
            let stepped = job::step(job, command);
            let count = lay(text, stepped, at);
            let more = continues(stepped);
            Turned {
                job: stepped.job,
                count,
                more,
            }
        }
    }
}
