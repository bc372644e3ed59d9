// Random numbers and keys (document 01, "Draw"; 001, formulas 21 and 22; document 02, [8]). A key is a fraction of two 64-bit products, compared
// exactly by crate `draw_fraction`; what limits of the frame make the products fit is asked for in `requires`.
#![tactic(auto)]

ghost use Rattle.std.specs.Prelude.{◌≡◌, ◌-◌, ◌*◌, ◌<◌, ◌≤◌, cond, ltb, length};
ghost use Rattle.rules.specs.Limits.{most_turnover, random_range, most_panel};
ghost use Rattle.rules.specs.Draw.{shifted};
ghost use Rattle.draw_key.specs.Methods.{taken_off, denominator_by};
ghost use Rattle.draw_key.specs.Units.{Units};

use draw_fraction::Fraction;
use limits::RANDOM_RANGE;

// Whose key: that of the Pareto draw, or that of sequential Poisson sampling (document 02, [8]).
#[derive(Clone, Copy)]
pub enum Method {
    Pareto,
    SequentialPoisson,
}

// What every key of a draw reads besides its unit: the method, the start s, the number n to sample and the rest turnover X.
#[derive(Clone, Copy)]
pub struct Setting {
    pub method: Method,
    pub start: u32,
    pub n: usize,
    pub rest: u64,
}

// A unit's random number as drawn, R: permanent, the same under every start.
#[derive(Drop)]
pub struct Permanent(pub u32);

// The random number as counted from a start, r: another quantity, though also below 1,000,000.
#[derive(Drop)]
pub struct Shifted(pub u32);

// "plus 1,000,000 if R < s": what is added. (A function of its own: chosen inside the sum it becomes a branch in a pass over keys, which takes longer.)
fn added(random: u32, start: u32) -> u32
    ensures { result ≡ cond (ltb random start) random_range 0 }
{
    if random < start {
        return RANDOM_RANGE;
    }
    0
}

impl Permanent {
    // "r = R − s, plus 1,000,000 if R < s" (formula 21): the only way from the one to the other.
    pub fn shift(self, start: u32) -> Shifted
        requires { (self.0 < random_range) × (start < random_range) }
        ensures { result.0 ≡ shifted start self.0 }
    {
        let random = self.0;
        let more = added(random, start);
        Shifted(random + more - start)
    }
}

// What a Pareto key takes off X and off 1,000,000. A sequential Poisson key takes nothing off: it is r × X over 1,000,000 × turnover, which is r over
// turnover times a factor that all keys have, so that both keys are one fraction.
#[tactic(auto, unfolding(crate::specs::Methods::taken_off))]
pub fn taken_off(method: Method, amount: u64) -> u64
    ensures { result ≡ taken_off method amount }
{
    match method {
        Method::Pareto => amount,
        Method::SequentialPoisson => 0,
    }
}

// X − n × turnover: the part of a key that no start changes, so that a rotation computes it once a unit.
pub fn gap(turnover: u64, rest: u64, size: u64) -> u64
    requires { (turnover ≤ most_turnover) × (size ≤ most_panel) }
    ensures { result ≡ rest - size * turnover }
{
    rest.saturating_sub(size * turnover)
}

// "r × (X − n × turnover) over (1,000,000 − r) × turnover" (formula 22 without the common factor n), where the gap is known; for sequential Poisson
// 1,000,000 stays whole.
pub fn key_over(method: Method, turnover: u64, r: Shifted, gap: u64) -> Fraction
    requires { (turnover ≤ most_turnover) × (r.0 < random_range) × (gap ≤ most_turnover) }
    ensures { (result.num ≡ r.0 * gap) × (result.den ≡ denominator_by method turnover r.0) }
{
    let near = u64::from(r.0);
    let far = u64::from(RANDOM_RANGE) - taken_off(method, near);
    Fraction {
        num: near * gap,
        den: far * turnover,
    }
}

// The units of a frame with their gaps, under a setting: ready for keys that fit 64 bits.
#[derive(Clone, Copy)]
pub struct Keyed<'a> {
    pub turnovers: &'a [u64],
    pub randoms: &'a [u32],
    pub gaps: &'a [u64],
    pub setting: Setting,
    pub ghost units: { Units turnovers.now randoms.now gaps.now setting },
}

impl<'a> Keyed<'a> {
    ghost use Rattle.draw_key.specs.Units.{UnitKey, has_key};
    ghost use Rattle.draw_key.specs.Keyed.{over};

    // Unit i has a key: its gap is not 0. A take-all unit has none.
    pub fn has_key(&self, i: usize) -> bool
        requires { i < length self.now.turnovers.now }
        ensures { result ≡ has_key self.now.gaps.now i }
    {
        self.gaps[i] != 0
    }

    // The key of unit i.
    pub fn key(&self, i: usize) -> Fraction
        requires { i < length self.now.turnovers.now }
        ensures { over UnitKey self.now i result }
    {
        let random = Permanent(self.randoms[i]);
        let shifted = random.shift(self.setting.start);
        let method = self.setting.method;
        key_over(method, self.turnovers[i], shifted, self.gaps[i])
    }
}
