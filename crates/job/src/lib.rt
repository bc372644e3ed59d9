// Document 01, "Job stream": what each command does to the job; here the draw of a panel from the frame so far.
#![tactic(auto)]

ghost use Rattle.rules.specs.Stream as rules;
ghost use Rattle.stream_read.specs.Value.{command_from};
ghost use Rattle.job_state.specs.Steps.{Steps};

use chain::Kind;
use job_state::{Job, Saying, Stepped};
use limits::MOST_PANEL;
use stream_read::Command;

// 2: a panel of the frame so far.
pub fn on_draw(mut job: Job, size: u8, start: u32) -> Stepped
    ensures { Steps job (rules.Command.draw size start) result }
{
    let z = usize::from(size);
    let mut numbers = [0; MOST_PANEL];
    let mut weights = [0; MOST_PANEL];
    match draw::draw(&job.frame.lent(), z, start, &mut numbers, &mut weights) {
        Err(why) => Stepped {
            job,
            says: Err(why),
        },
        Ok(_) => {
            job_state::hold_panel(&mut job, z, weights);
            Stepped {
                job,
                says: Ok(Saying::Panel(numbers)),
            }
        }
    }
}

// What a command does to the job and says. A refused command leaves the job as it was.
pub fn step(job: Job, command: Command) -> Stepped
    ensures { Steps job (command_from command) result }
{
    match command {
        Command::Unit {
            number,
            turnover,
            random,
        } => job_given::on_unit(job, number, turnover, random),
        Command::Draw { size, start } => on_draw(job, size, start),
        Command::Share { place, share } => job_given::on_share(job, place, share),
        Command::Relative { place, relative } => job_given::on_relative(job, place, relative),
        Command::Open { start } => job_calls::on_open(job, start),
        Command::Quarter => job_calls::on_call(job, Kind::Quarter),
        Command::Close => job_calls::on_call(job, Kind::Close),
    }
}
