// The key of a unit as terms (document 01, "Draw"): a numerator over a denominator, with its whole part where that is asked for, and the
// tests which of two keys is below the other.
#![tactic(auto)]

ghost use Rattle.std.specs.Prelude.{◌≡◌, true, false, ◌*◌, ◌<◌, ◌/◌};
ghost use Rattle.rules.specs.Draw.{fraction_below};
ghost use Rattle.draw_key.specs.Keyed.{over, size_of};
ghost use Rattle.draw_terms.specs.Divided.{Divided, Narrow};

use draw_fraction::Fraction;
use draw_key::Keyed;

// The key of a unit, with its whole part.
#[derive(Clone, Copy)]
pub struct Key {
    pub unit: usize,
    pub terms: Fraction,
    pub whole: u64,
    pub ghost divided: { Divided terms whole },
}

// A product of a denominator by at most 18 × n stays within 64 bits: for a key that is not 0, n × den is at most 10^18.
const ROOM: u64 = 18;

// A key that is at least whole + 1, told by one product in place of a division; where the product might wrap the answer is false, and
// the division decides.
fn beyond(terms: Fraction, whole: u64, n: u64) -> bool
    requires { Narrow n terms }
    ensures { result ≡ true → whole < terms.num / terms.den }
{
    whole < ROOM * n && terms.num != 0 && (whole + 1) * terms.den <= terms.num
}

impl Key {
    ghost use Rattle.draw_terms.specs.Terms.{IsKey};

    // The key of these terms.
    pub fn divided(unit: usize, terms: Fraction) -> Key
        requires { 0 < terms.den }
        ensures { (result.unit ≡ unit) × (result.terms ≡ terms) }
    {
        Key {
            unit,
            terms,
            whole: terms.num / terms.den,
        }
    }

    // The key of unit i.
    pub fn of(keyed: &Keyed, i: usize) -> Key
        requires { i < size_of keyed.now }
        ensures { over IsKey keyed.now i result }
    {
        Key::divided(i, keyed.key(i))
    }

    // The key of these terms is not below this one, told without a division: no smaller a numerator over no larger a denominator, as of units of
    // one turnover, or a key beyond. Where the answer is false it is not yet decided.
    pub fn no_better(self, terms: Fraction, n: u64) -> bool
        requires { Narrow n terms }
        ensures { result ≡ true → fraction_below terms.num terms.den self.terms.num self.terms.den ≡ false }
    {
        (self.terms.num <= terms.num && terms.den <= self.terms.den) || beyond(terms, self.whole, n)
    }

    // This key is below key b. Keys of the same terms are equal: no remainder is divided.
    pub fn below(self, b: Key) -> bool
        ensures { result ≡ fraction_below self.terms.num self.terms.den b.terms.num b.terms.den }
    {
        self.terms != b.terms
            && draw_fraction::below_by_parts(self.terms, self.whole, b.terms, b.whole)
    }

    // This key is below the key of these terms: their whole part is held against this one's by a product, and divided only where it might wrap.
    pub fn below_terms(self, terms: Fraction, n: u64) -> bool
        requires { Narrow n terms }
        ensures { result ≡ fraction_below self.terms.num self.terms.den terms.num terms.den }
    {
        if ROOM * n <= self.whole {
            return self.below(Key::divided(self.unit, terms));
        }
        if terms.num == 0 {
            return false;
        }
        let least = self.whole * terms.den;
        if terms.num < least {
            return false;
        }
        if terms.den <= terms.num - least {
            return true;
        }
        let alike = Key {
            unit: self.unit,
            terms,
            whole: self.whole,
        };
        self.below(alike)
    }
}
