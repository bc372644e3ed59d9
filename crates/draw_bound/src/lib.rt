// A bound that parts the units with the smallest keys from the others, and what is asked of one: whether a key is near enough to be looked at, whether
// a unit is within the bound, and the check of a bound that was searched for.
#![tactic(auto)]

ghost use Rattle.std.specs.Prelude.{◌≡◌, true, ◌*◌, ◌≤◌, ◌<◌, length, leb};
ghost use Rattle.rules.specs.Limits.{most_turnover, random_range, most_panel};
ghost use Rattle.rules.specs.Draw.{fraction_below};
ghost use Rattle.selection.specs.Marked.{Placed};
ghost use Rattle.draw_key.specs.Units.{num_of};
ghost use Rattle.draw_key.specs.Keyed.{over, size_of};
ghost use Rattle.draw_bound.specs.Bound.{reach_of, near, within, passes, Apart, Checked, most_word};

use draw_fraction::Fraction;
use draw_key::Keyed;

// Units of a key within reach, by the whole part of key × scale: those below `part`, and of those at `part` the ones up to unit `last`.
#[derive(Clone, Copy)]
pub struct Bound {
    pub scale: u64,
    pub part: u64,
    pub last: usize,
}

// The reach for n units to sample: n and half as much again, and 8, so that a short list seldom has fewer than n of them.
pub fn reach_of(n: usize) -> u64
    requires { n ≤ most_panel }
    ensures { result ≡ reach_of n }
{
    (n + n / 2 + 8) as u64
}

// A key is at most `reach`. A key of 0 needs no product.
pub fn is_near(key: Fraction, reach: u64) -> bool
    requires { 0 < key.num → reach * key.den ≤ 10 * (random_range * most_turnover) }
    ensures { result ≡ leb key.num (reach * key.den) }
{
    key.num == 0 || key.num <= reach * key.den
}

// Key x is below key y. Keys of the same terms, as of units of one turnover and one random number, are not divided.
fn is_below(x: Fraction, y: Fraction) -> bool
    ensures { result ≡ fraction_below x.num x.den y.num y.den }
{
    x != y && draw_fraction::below(x, y)
}

// A unit of this part is within the bound.
pub fn is_passed(b: Bound, part: u64, i: usize) -> bool
    ensures { result ≡ passes b part i }
{
    part < b.part || (part == b.part && i <= b.last)
}

// Unit i, of the bound's own part, is by its key on the side of the bound's last unit where its number puts it.
fn is_apart(keyed: &Keyed, b: Bound, i: usize) -> bool
    requires { (i < size_of keyed.now) × (b.last < size_of keyed.now) }
    ensures { result ≡ true → over Apart keyed.now b i }
{
    let key = keyed.key(i);
    let last = keyed.key(b.last);
    if i <= b.last {
        return !is_below(last, key);
    }
    !is_below(key, last)
}

// The bound is checked: exactly z of the listed units are within it, and those of its own part are parted rightly.
pub fn is_checked(keyed: &Keyed, units: &[usize], parts: &[u64], b: Bound, z: usize) -> bool
    requires { Placed (size_of keyed.now) units.now × (length units.now ≤ length parts.now) }
    ensures { result ≡ true → over Checked keyed.now units.now parts.now b z }
{
    if b.part == 0 || keyed.turnovers.len() <= b.last {
        return false;
    }
    let mut many: usize = 0;
    'listed: for (i, part) in units.iter().zip(parts) {
        if *part == b.part && !is_apart(keyed, b, *i) {
            return false;
        }
        if is_passed(b, *part, *i) {
            many += 1;
        }
    }
    many == z
}

// Unit i is within a bound.
pub fn is_within(keyed: &Keyed, b: Bound, i: usize) -> bool
    requires unit { i < size_of keyed.now }
    requires scale_bound { over near keyed.now i ≡ true → num_of keyed.now.randoms.now keyed.now.gaps.now keyed.now.setting i * b.scale ≤ most_word }
    ensures { result ≡ over within keyed.now b i }
{
    let reach = reach_of(keyed.setting.n);
    let key = keyed.key(i);
    is_near(key, reach) && is_passed(b, key.num * b.scale / key.den, i)
}
