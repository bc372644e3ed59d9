// The size of the take-all group (document 01, "Frame and weights"; 001, section 2.3), by passes over the turnovers. Whoever reaches X at q is in the
// group, all of them at once; then X falls, and the next pass looks who reaches it now, until nobody more does. Nothing is put in order: the group is
// whoever has at least one turnover, the least of a unit that reaches.
#![tactic(auto)]

ghost use Rattle.std.specs.Prelude.{◌≡◌, ℕ, ◌*◌, ◌<◌, ◌≤◌, length, leb};
ghost use Rattle.rules.specs.Limits.{most_panel, most_turnover};
ghost use Rattle.rules.specs.Lists.{sum};
ghost use Rattle.rules.specs.Selection.{count, sum_of};
ghost use Rattle.rules.specs.TakeAll.{turnover};
ghost use Rattle.group_least.specs.Size.{Sized, has_least, IsSize};

// q units are take-all, those with a turnover of at least `least`; n more are sampled, and rest is X.
#[derive(Clone, Copy)]
pub struct Size {
    pub q: usize,
    pub n: usize,
    pub rest: u64,
    pub least: u64,
}

// Units, and their turnover together.
#[derive(Clone, Copy)]
struct Many {
    count: usize,
    turnover: u64,
}

// The sum of all turnovers.
fn total(turnovers: &[u64]) -> u64
    requires { sum turnovers.now ≤ most_turnover }
    ensures { result ≡ sum turnovers.now }
{
    turnovers.iter().sum()
}

// The units with at least this turnover; one pass for both, since two chains take five times as long.
fn reached(turnovers: &[u64], least: u64) -> Many
    requires { sum turnovers.now ≤ most_turnover }
    ensures count_value { result.count ≡ count (has_least turnovers.now least) (length turnovers.now) }
    ensures turnover_value { result.turnover ≡ sum_of (has_least turnovers.now least) (turnover turnovers.now) (length turnovers.now) }
{
    let mut count: usize = 0;
    let mut turnover: u64 = 0;
    for &unit in turnovers {
        if least <= unit {
            count += 1;
            turnover += unit;
        }
    }
    Many { count, turnover }
}

// The least turnover of a unit that reaches X: n × turnover ≥ X.
fn least_reaching(n: u64, rest: u64) -> u64
    requires { (0 < n) × (n ≤ most_panel) × (rest ≤ most_turnover) }
    ensures { (t : ℕ) → leb rest (n * t) ≡ leb result t }
{
    rest.div_ceil(n)
}

// q, n and X of turnovers that refusals 3 and 5 leave.
pub fn find_size(turnovers: &[u64], z: usize) -> Size
    requires { Sized turnovers.now z }
    ensures { IsSize turnovers.now z result }
{
    let total = total(turnovers);
    let mut q: usize = 0;
    let mut rest = total;
    let mut least = total + 1;
    // q grows by all who reach X at once, so that no range counts it
    while q < z {
        let n = z - q;
        let at = least_reaching(n as u64, rest);
        let r = reached(turnovers, at);
        if r.count == q {
            return Size { q, n, rest, least };
        }
        q = r.count;
        rest = total - r.turnover;
        least = at;
    }
    Size {
        q: z,
        n: 0,
        rest: 0,
        least,
    }
}
