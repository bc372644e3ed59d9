// Document 01, "Job stream": what a job holds, what a command says, and the jobs that commands leave.
// A job is held by value, and any value of the type is a job: a count beyond an array's places reads as all of them.
#![tactic(auto)]

ghost use Rattle.std.specs.Prelude.{◌≡◌, min};
ghost use Rattle.rules.specs.Limits.{most_panel};
ghost use Rattle.rules.specs.Job.{empty_job};
ghost use Rattle.frame.specs.Frame.{frame_of};
ghost use Rattle.job_state.specs.State.{units_of, Parts, job_of};
ghost use Rattle.job_state.specs.Steps.{job_at_start, panel_held, chain_held, plain_step};

use chain::{Chain, Kind};
use chain_open_input::Lists;
use frame::Frame;
use limits::{MOST_HELD, MOST_PANEL, SHARE_SCALE};
use refusals::Refusal;

// The frame so far, in the first places of three arrays: a draw is lent three lists, and there is no heap for lists that grow.
#[derive(Clone, Copy)]
pub struct HeldFrame {
    pub numbers: [u32; MOST_HELD],
    pub turnovers: [u64; MOST_HELD],
    pub randoms: [u32; MOST_HELD],
    pub units: usize,
}

impl HeldFrame {
    // The frame as a draw is lent it.
    pub fn lent(&self) -> Frame
        ensures { frame_of result ≡ units_of self.now }
    {
        let units = self.units.min(MOST_HELD);
        Frame {
            numbers: &self.numbers[..units],
            turnovers: &self.turnovers[..units],
            randoms: &self.randoms[..units],
        }
    }
}

// The W of the drawn panel with its shares and pending relatives, held as a frame is: an opening is lent three lists.
#[derive(Clone, Copy)]
pub struct HeldPanel {
    pub weights: [u64; MOST_PANEL],
    pub shares: [u32; MOST_PANEL],
    pub pending: [u32; MOST_PANEL],
    pub size: usize,
}

impl HeldPanel {
    // How many units there are.
    pub fn units(&self) -> usize
        ensures { result ≡ min self.now.size most_panel }
    {
        self.size.min(MOST_PANEL)
    }

    // The lists as an opening is lent them.
    pub fn lent(&self) -> Lists
        ensures { Parts self.now result }
    {
        let units = self.units();
        Lists {
            weights: &self.weights[..units],
            shares: &self.shares[..units],
            relatives: &self.pending[..units],
        }
    }
}

// The frame, the panel, and the chain if it is open.
#[derive(Clone, Copy)]
pub struct Job {
    pub frame: HeldFrame,
    pub panel: HeldPanel,
    pub chain: Option<Chain>,
}

// What a command that is accepted says: of a drawn panel the unit numbers, in the first places of an array; its W are in the job.
#[derive(Clone, Copy)]
pub enum Saying {
    Nothing,
    Panel([u32; MOST_PANEL]),
    Figure(Kind, u64),
}

// The job that a command leaves, and what it says or the refusal.
#[derive(Clone, Copy)]
pub struct Stepped {
    pub job: Job,
    pub says: Result<Saying, Refusal>,
}

// A step that leaves this job and says this.
pub fn said(job: Job, says: Result<Saying, Refusal>) -> Stepped
    ensures { result ≡ plain_step job says }
{
    Stepped { job, says }
}

// The job after an accepted open, quarter or close: the chain that it leaves, and no relatives.
pub fn with_chain(mut job: Job, chain: Chain) -> Job
    ensures { result ≡ chain_held job chain }
{
    job.panel.pending.fill(0);
    job.chain = Some(chain);
    job
}

// An accepted draw on a lent job: a panel with whole shares, no relatives and no chain; the frame stays.
pub fn hold_panel(job: &mut Job, size: usize, weights: [u64; MOST_PANEL])
    ensures { job.new ≡ panel_held job.old size weights }
{
    job.panel = HeldPanel {
        weights,
        shares: [SHARE_SCALE as u32; MOST_PANEL],
        pending: [0; MOST_PANEL],
        size,
    };
    job.chain = None;
}

// The job after an accepted draw.
pub fn drawn(mut job: Job, size: usize, weights: [u64; MOST_PANEL]) -> Job
    ensures { result ≡ panel_held job size weights }
{
    hold_panel(&mut job, size, weights);
    job
}

// The job before the first command.
pub fn empty() -> Job
    ensures { (result ≡ job_at_start) × (job_of result ≡ empty_job) }
{
    Job {
        frame: HeldFrame {
            numbers: [0; MOST_HELD],
            turnovers: [0; MOST_HELD],
            randoms: [0; MOST_HELD],
            units: 0,
        },
        panel: HeldPanel {
            weights: [0; MOST_PANEL],
            shares: [0; MOST_PANEL],
            pending: [0; MOST_PANEL],
            size: 0,
        },
        chain: None,
    }
}
