// Document 02, [7]: what the sampled units of a panel have, n, X and T, one pass each. A mark of 0 is a take-all unit, any other a sampled one.
#![tactic(auto)]

ghost use Rattle.std.specs.Prelude.{◌≡◌, ◌≤◌, not, eqb, length};
ghost use Rattle.rules.specs.Limits.{most_panel};
ghost use Rattle.rules.specs.Lists.{any_of};
ghost use Rattle.rules.specs.Panel.{of_sampled, sampled_base};
ghost use Rattle.chain_sampled.specs.Tally.{tally_of};

// n and T: the count of sampled units, absent ones among them, and the sum of their shares.
#[derive(Drop)]
pub struct Tally {
    pub size: u64,
    pub shares: u64,
}

pub fn count(marks: &[u8], g: &[u32]) -> Tally
    requires { (length marks.now ≡ length g.now) × (length g.now ≤ most_panel) }
    ensures { result ≡ tally_of marks.now g.now }
{
    let mut size: u64 = 0;
    let mut shares: u64 = 0;
    for (mark, share) in marks.iter().zip(g) {
        if *mark != 0 {
            size += 1;
            shares += u64::from(*share);
        }
    }
    Tally { size, shares }
}

// X: the W of the first sampled unit, 0 where there is none.
pub fn first(marks: &[u8], w: &[u64]) -> u64
    requires { length marks.now ≡ length w.now }
    ensures { result ≡ sampled_base marks.now w.now }
{
    // By a place: with `find` over the pairs and `map_or` (tried) the proof did not close.
    match marks.iter().position(|mark| *mark != 0) {
        Some(i) => w[i],
        None => 0,
    }
}

// Whether some sampled unit's W is not x.
pub fn any_other(marks: &[u8], w: &[u64], x: u64) -> bool
    requires { length marks.now ≡ length w.now }
    ensures { result ≡ any_of (λ y. not (eqb y x)) (of_sampled marks.now w.now) }
{
    marks.iter().zip(w).any(|(mark, y)| *mark != 0 && *y != x)
}
