// Document 01, "Job stream": the commands on the chain, open, quarter and close; refusal 19.
#![tactic(auto)]

ghost use Rattle.rules.specs.Stream.{Command};
ghost use Rattle.job_state.specs.Steps.{Steps};
ghost use Rattle.job_calls.specs.Commands.{command_by};

use chain::Kind;
use job_state::{Job, Saying, Stepped, said, with_chain};
use refusals::Refusal;

// 5: a new chain from the panel, its shares and the pending relatives.
pub fn on_open(job: Job, start: u64) -> Stepped
    ensures { Steps job (Command.opens start) result }
{
    if job.panel.units() == 0 {
        return said(job, Err(Refusal::State));
    }
    match chain_open::open(&job.panel.lent(), start) {
        Err(why) => said(job, Err(why)),
        Ok(chain) => said(with_chain(job, chain), Ok(Saying::Nothing)),
    }
}

// 6 and 7: the figure of a quarter, or of a close, which moves the chain.
pub fn on_call(job: Job, kind: Kind) -> Stepped
    ensures { Steps job (command_by kind) result }
{
    let Some(chain) = job.chain else {
        return said(job, Err(Refusal::State));
    };
    let answered = chain.call(kind, job.panel.lent().relatives);
    match answered.answer {
        Err(why) => said(job, Err(why)),
        Ok(f) => said(with_chain(job, answered.chain), Ok(Saying::Figure(kind, f))),
    }
}
