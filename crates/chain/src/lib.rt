// Document 01, "Chain record": quarter and close, by value on the record. They differ where the document says so, in what a close does to the
// record; the rest is shared, the refusals and the figure in crate `chain_figure`. Opening a record is crate `chain_open`.
#![tactic(auto)]

ghost use Rattle.std.specs.Prelude.{◌≡◌};
ghost use Rattle.rules.specs.Chain.{Call, call_answer, after};
ghost use Rattle.chain_record.specs.Record.{empty_record, lent_record};
ghost use Rattle.chain.specs.Record.{record_of, call_by, answer_from};

use chain_record::{Numbers, Record};
use chain_relative::Relative;
use limits::MOST_PANEL;
use refusals::Refusal;

// `weights` has every place of the record; the units' v are the first `units` of them.
#[derive(Clone, Copy)]
pub struct Chain {
    pub weights: [u64; MOST_PANEL],
    pub numbers: Numbers,
}

// Which of the two a call is.
#[derive(Clone, Copy, Debug, PartialEq, Eq)]
pub enum Kind {
    Quarter,
    Close,
}

// The next record beside the figure or the refusal, since document 01 wants both of a call by value.
#[derive(Clone, Copy)]
pub struct Answered {
    pub chain: Chain,
    pub answer: Result<u64, Refusal>,
}

impl Chain {
    // A record that holds nothing.
    pub fn empty() -> Chain
        ensures { record_of result ≡ empty_record }
    {
        Chain {
            weights: [0u64; MOST_PANEL],
            numbers: Numbers::default(),
        }
    }

    // The record as a call is lent it.
    pub fn lent(&self) -> Record
        ensures { lent_record result ≡ record_of self.now }
    {
        Record {
            places: &self.weights,
            numbers: self.numbers,
        }
    }

    // The figure of a quarter on a lent record.
    fn quarter_lent(&self, p: &[u32]) -> Result<u64, Refusal>
        ensures { answer_from result ≡ call_answer (record_of self.now) (Call.quarter p.now) }
    {
        let figure = chain_figure::reckon(&self.lent(), p)?;
        chain_figure::judge_figure(figure, self.numbers)?;
        Ok(figure)
    }

    // The figure of a close, which moves the weights of a lent record, judged before the figure, sets the index and counts one close.
    fn close_lent(&mut self, p: &[u32]) -> Result<u64, Refusal>
        ensures answer_value { answer_from result ≡ call_answer (record_of self.old) (Call.close p.now) }
        ensures self_after { record_of self.new ≡ after (record_of self.old) (Call.close p.now) }
    {
        let figure = chain_figure::reckon(&self.lent(), p)?;
        let numbers = self.numbers;
        let mut places = self.weights;
        chain_sums::scale_into(
            &self.weights,
            p,
            Relative::SCALE,
            &mut places[..numbers.units],
        );
        chain_sums::judge_weights(self.lent().held(), &places[..numbers.units])?;
        chain_figure::judge_figure(figure, numbers)?;
        *self = Chain {
            weights: places,
            numbers: numbers.closed(figure),
        };
        Ok(figure)
    }

    // The figure of a quarter; the record stays as it is.
    #[tactic(auto, using(crate::proofs::Calls::quarter_stays))]
    pub fn quarter(self, p: &[u32]) -> Answered
        ensures answer_value { answer_from result.answer ≡ call_answer (record_of self) (Call.quarter p.now) }
        ensures chain_value { record_of result.chain ≡ after (record_of self) (Call.quarter p.now) }
    {
        let answer = self.quarter_lent(p);
        Answered {
            chain: self,
            answer,
        }
    }

    // The figure of a close, and the record after it.
    pub fn close(mut self, p: &[u32]) -> Answered
        ensures answer_value { answer_from result.answer ≡ call_answer (record_of self) (Call.close p.now) }
        ensures chain_value { record_of result.chain ≡ after (record_of self) (Call.close p.now) }
    {
        let answer = self.close_lent(p);
        Answered {
            chain: self,
            answer,
        }
    }

    // The one or the other, by a plain match: the two are methods that document 01 names, and no closure over them is plainer.
    pub fn call(self, kind: Kind, p: &[u32]) -> Answered
        ensures answer_value { answer_from result.answer ≡ call_answer (record_of self) (call_by kind p.now) }
        ensures chain_value { record_of result.chain ≡ after (record_of self) (call_by kind p.now) }
    {
        match kind {
            Kind::Quarter => self.quarter(p),
            Kind::Close => self.close(p),
        }
    }
}
