// Document 01, "Job stream": the text of what a command says, and whether the stream goes on after it.
#![tactic(auto)]

ghost use Rattle.std.specs.Prelude.{◌≡◌, length};
ghost use Rattle.rules.specs.Refusals.{written};
ghost use Rattle.job_state.specs.State.{saying_from};
ghost use Rattle.job_text.specs.Text.{continues, text_at};

use chain::Kind;
use job_state::{Saying, Stepped};
use text_lines::PANEL_ROOM;

// Bytes of the longest text of a command: a line for each unit of a panel.
pub const TEXT_ROOM: usize = PANEL_ROOM;

// Whether the stream goes on after what a command says.
pub fn continues(stepped: Stepped) -> bool
    ensures { result ≡ continues (saying_from stepped) }
{
    stepped.says.is_ok()
}

// Lays the text of what a command says, and answers its bytes.
pub fn lay(text: &mut [u8; TEXT_ROOM], stepped: Stepped, at: usize) -> usize
    ensures { (result ≡ length (text_at (saying_from stepped) at)) × (text.new ≡ written 0 (text_at (saying_from stepped) at) text.old) }
{
    match stepped.says {
        Err(why) => text_lines::refusal_line(text, u32::from(why), at),
        Ok(Saying::Nothing) => 0,
        Ok(Saying::Panel(numbers)) => {
            let panel = stepped.job.panel;
            text_lines::panel_lines(text, &numbers[..panel.units()], panel.lent().weights)
        }
        Ok(Saying::Figure(Kind::Quarter, f)) => text_lines::quarter_line(text, f),
        Ok(Saying::Figure(Kind::Close, f)) => text_lines::close_line(text, f),
    }
}
