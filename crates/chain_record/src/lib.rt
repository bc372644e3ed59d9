// Document 01, "Chain record", and document 02, [11]: what a record holds beside its places, how that comes about, and the limits 19 and 24. Crates above
// make and judge a record by these methods, so that a further number is a matter of this crate, the definitions and the layout for C.
#![tactic(auto)]

ghost use Rattle.std.specs.Prelude.{◌≡◌, ◌≤◌, length};
ghost use Rattle.rules.specs.Limits.{most_panel};
ghost use Rattle.rules.specs.Chain.{held, bad_links, broken};
ghost use Rattle.chain_record.specs.Record.{Countable, lent_record, opened_numbers, renewed_numbers, closed_numbers, spent_by};

use chain_weight::bad_weight;
use limits::{MOST_CLOSES, MOST_PANEL, bad_index, bad_units};

// Those of a record that holds nothing are the default, all 0.
#[derive(Clone, Copy, Debug, Default, PartialEq, Eq)]
pub struct Numbers {
    pub units: usize,
    pub index: u64,
    pub closes: u64,
    pub links: u64,
}

impl Numbers {
    // Those of a first panel that no close has moved.
    pub fn opened(units: usize, start: u64) -> Numbers
        ensures { result ≡ opened_numbers units start }
    {
        Numbers {
            units,
            index: start,
            closes: 0,
            links: 0,
        }
    }

    // Those of a new panel, these, that carries a chain on: the links made before it go onward.
    pub fn renewed(self, before: Numbers) -> Numbers
        ensures { result ≡ renewed_numbers self before }
    {
        Numbers {
            links: before.links,
            ..self
        }
    }

    // Those after one more close, with this figure.
    pub fn closed(self, figure: u64) -> Numbers
        requires { Countable self }
        ensures { result ≡ closed_numbers self figure }
    {
        Numbers {
            index: figure,
            closes: self.closes + 1,
            links: self.links + 1,
            ..self
        }
    }

    // 19: whether these cannot be the closes of a panel and the links of its chain. More than forty closes are more than forty links, or more than the links.
    fn bad_links(self) -> bool
        ensures { result ≡ bad_links self.closes self.links }
    {
        MOST_CLOSES < self.links || self.links < self.closes
    }

    // 24: whether the links are spent.
    pub fn is_spent(self) -> bool
        ensures { result ≡ spent_by self }
    {
        MOST_CLOSES <= self.links
    }
}

// A record that a call is lent: its places are borrowed, so that no call copies a record.
#[derive(Clone, Copy)]
pub struct Record<'a> {
    pub places: &'a [u64; MOST_PANEL],
    pub numbers: Numbers,
}

impl Record<'_> {
    // The v of the units.
    pub fn held(&self) -> &[u64]
        requires { self.now.numbers.units ≤ most_panel }
        ensures value { result.now ≡ held (lent_record self.now) }
        ensures long { length result.now ≡ self.now.numbers.units }
    {
        let places = self.places;
        &places[..self.numbers.units]
    }

    // 19: whether the record breaks a limit. The number of units is judged before the places are looked at.
    pub fn is_broken(&self) -> bool
        ensures { result ≡ broken (lent_record self.now) }
    {
        let numbers = self.numbers;
        if bad_units(numbers.units) || numbers.bad_links() || bad_index(numbers.index) {
            return true;
        }
        let held = self.held();
        if held.iter().any(|v| bad_weight(*v, *v)) {
            return true;
        }
        chain_sums::limited_sum(held).is_none_or(|sum| sum == 0)
    }
}
