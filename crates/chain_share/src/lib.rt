// Document 02, [7]: an opening with an outside share G. What is refused of its input, 9 to 13 and 29, and its u, in which no product is made before 29 has
// judged G.
#![tactic(auto)]

ghost use Rattle.std.specs.Prelude.{◌≡◌, ◌*◌, ◌/◌, ◌<◌, ◌^◌};
ghost use Rattle.refusals.specs.Number.{refusal_of};
ghost use Rattle.rules.specs.Limits.{share_scale};
ghost use Rattle.rules.specs.Panel.{shared_unit, each_unit, outside_shared, bad_outside, outside_input_refusal};
ghost use Rattle.chain_open_input.specs.Lists.{over};
ghost use Rattle.chain_share.specs.Outsideable.{Marked, Layable, Outsideable};

use chain_open_input::Lists;
use limits::SHARE_SCALE;
use refusals::Refusal;

// floor(n × X × G / 10,000).
fn inner(size: u64, x: u64, domain: u32) -> u64
    requires { (size * x < 2 ^ 64) × (size * x * domain < 2 ^ 64) }
    ensures { result ≡ size * x * domain / share_scale }
{
    let base = size * x;
    base * u64::from(domain) / SHARE_SCALE
}

// The u of one unit.
fn unit(mark: u8, w: u64, g: u32, inner: u64, t: u64) -> u64
    requires { (w * g < 2 ^ 64) × (inner * g < 2 ^ 64) × ((mark ≡ 0 → ⊥) → 0 < t) }
    ensures { result ≡ shared_unit inner t mark w g }
{
    if mark != 0 {
        return inner * u64::from(g) / t;
    }
    w * u64::from(g) / SHARE_SCALE
}

// The u of all units, from the inner floor and T.
fn lay(marks: &[u8], w: &[u64], g: &[u32], inner: u64, t: u64, u: &mut [u64])
    requires { Layable inner t marks.now w.now g.now u.old }
    ensures { u.new ≡ each_unit (shared_unit inner t) marks.now w.now g.now }
{
    for (i, mark) in marks.iter().enumerate() {
        u[i] = unit(*mark, w[i], g[i], inner, t);
    }
}

// What an opening from the national accounts brings beside its lists: a domain's share G, and a mark for each unit. One that is not 0 says "sampled".
#[derive(Clone, Copy)]
pub struct Outside<'a> {
    pub marks: &'a [u8],
    pub domain: u32,
}

impl Outside<'_> {
    // 29: some unit is sampled and G is 0 or over 1, the sampled shares are all 0, or sampled units differ in W.
    fn is_bad(&self, w: &[u64], g: &[u32]) -> bool
        requires { Marked self.now.marks.now w.now g.now }
        ensures { result ≡ bad_outside self.now.domain self.now.marks.now w.now g.now }
    {
        let sampled = chain_sampled::count(self.marks, g);
        if sampled.size == 0 {
            return false;
        }
        let x = chain_sampled::first(self.marks, w);
        self.domain == 0
            || SHARE_SCALE < u64::from(self.domain)
            || sampled.shares == 0
            || chain_sampled::any_other(self.marks, w, x)
    }

    // 9 to 13, and then 29.
    pub fn judge(&self, lists: &Lists, start: u64) -> Result<(), Refusal>
        ensures { refusal_of result ≡ over (outside_input_refusal self.now.domain self.now.marks.now) lists.now start }
    {
        let w = lists.weights;
        let marks = self.marks;
        if marks.len() != w.len() {
            return Err(Refusal::UnitLists);
        }
        chain_open_input::judge_input(lists, start)?;
        if self.is_bad(w, lists.shares) {
            return Err(Refusal::OutsideShare);
        }
        Ok(())
    }

    // The u of an opening that 9 to 13 and 29 let pass. With no sampled unit nothing is made of G.
    pub fn share_into(&self, lists: &Lists, u: &mut [u64])
        requires { Outsideable self.now.domain self.now.marks.now lists.now.weights.now lists.now.shares.now u.old }
        ensures { u.new ≡ outside_shared self.now.domain self.now.marks.now lists.now.weights.now lists.now.shares.now }
    {
        let marks = self.marks;
        let w = lists.weights;
        let g = lists.shares;
        let sampled = chain_sampled::count(marks, g);
        let x = chain_sampled::first(marks, w);
        let whole = inner(sampled.size, x, self.domain);
        lay(marks, w, g, whole, sampled.shares, u);
    }
}
