// Document 01, "Chain record": the opening of a chain record from base weights W, shares g, updating relatives a and a start index; and document 02's [7],
// the opening that also brings an outside share.
#![tactic(auto)]

ghost use Rattle.std.specs.Prelude.{◌≡◌, ◌≤◌, length};
ghost use Rattle.refusals.specs.Number.{refusal_of};
ghost use Rattle.rules.specs.Limits.{most_panel};
ghost use Rattle.rules.specs.Chain.{open_answer, opening, open_weight_refusal};
ghost use Rattle.rules.specs.Panel.{panel_shared, panel_answer};
ghost use Rattle.chain_open_input.specs.Lists.{over};
ghost use Rattle.chain_open_weights.specs.Weighable.{Weighable};
ghost use Rattle.chain_open.specs.Opened.{opening_of, weighed_answer};
ghost use Rattle.chain_open.specs.Panel.{panel_of, input_refusal, CanShare};

use chain::Chain;
use chain_open_input::Lists;
use chain_record::Numbers;
use chain_share::Outside;
use limits::MOST_PANEL;
use refusals::Refusal;

// What an opening brings beside its start index: the lists, and perhaps an outside share.
#[derive(Clone, Copy)]
pub struct Panel<'a> {
    pub lists: Lists<'a>,
    pub outside: Option<Outside<'a>>,
}

impl Panel<'_> {
    // 9 to 13, and where there is an outside share 29.
    fn judge(&self, start: u64) -> Result<(), Refusal>
        ensures { refusal_of result ≡ input_refusal (panel_of self.now) start }
    {
        match self.outside {
            Some(outside) => outside.judge(&self.lists, start),
            None => chain_open_input::judge_input(&self.lists, start),
        }
    }

    // The u, with an outside share or without.
    fn share_into(&self, u: &mut [u64])
        requires { CanShare (panel_of self.now).outside self.now.lists.weights.now self.now.lists.shares.now u.old }
        ensures { u.new ≡ panel_shared (panel_of self.now) }
    {
        match self.outside {
            Some(outside) => outside.share_into(&self.lists, u),
            None => chain_open_weights::share_into(self.lists.weights, self.lists.shares, u),
        }
    }

    // 21 and 22 of the u; the last list holds the opening weights where neither applies.
    fn weigh(&self, u: &[u64], v: &mut [u64]) -> Result<(), Refusal>
        requires { Weighable self.now.lists.shares.now u.now self.now.lists.relatives.now × (length v.old ≡ length u.now) }
        ensures result_value { refusal_of result ≡ open_weight_refusal self.now.lists.shares.now u.now self.now.lists.relatives.now }
        ensures v_after { refusal_of result ≡ 0 → v.new ≡ opening u.now self.now.lists.relatives.now }
    {
        chain_open_weights::weigh(self.lists.shares, u, self.lists.relatives, v)
    }

    // The opening from the u, whichever way to the u was taken: 21 and 22, or else the record. (It hands the record on itself: each function between copies it.)
    fn open_from(&self, u: &[u64], start: u64) -> Result<Chain, Refusal>
        requires { Weighable self.now.lists.shares.now u.now self.now.lists.relatives.now × (length u.now ≤ most_panel) }
        ensures { opening_of result ≡ weighed_answer self.now.lists.shares.now u.now self.now.lists.relatives.now start }
    {
        let n = u.len();
        let mut weights = [0u64; MOST_PANEL];
        self.weigh(u, &mut weights[..n])?;
        Ok(Chain {
            weights,
            numbers: Numbers::opened(n, start),
        })
    }

    // The opening, with an outside share or without.
    pub fn open(&self, start: u64) -> Result<Chain, Refusal>
        ensures { opening_of result ≡ panel_answer (panel_of self.now) start }
    {
        self.judge(start)?;
        let n = self.lists.weights.len();
        let mut u = [0u64; MOST_PANEL];
        self.share_into(&mut u[..n]);
        self.open_from(&u[..n], start)
    }
}

// The opening without an outside share.
pub fn open(lists: &Lists, start: u64) -> Result<Chain, Refusal>
    ensures { opening_of result ≡ over open_answer lists.now start }
{
    let panel = Panel {
        lists: *lists,
        outside: None,
    };
    panel.open(start)
}
