// Who is sampled under a start (document 01, "Draw"), for a caller that asks it of a few units: by the bound of a short list where there is one, and
// else by the key of the last sampled unit.
ghost use Rattle.std.specs.Prelude.{◌≡◌, ◌+◌, ◌<◌, length};
ghost use Rattle.rules.specs.Selection.{count};
ghost use Rattle.draw_key.specs.Units.{keyless, sampled_of};
ghost use Rattle.draw_key.specs.Keyed.{over, size_of};
ghost use Rattle.draw_panel.specs.Telling.{Tells};

use draw_bound::Bound;
use draw_key::Keyed;
use draw_terms::Key;
use limits::MOST_PANEL;

// A bound, or the key of the last sampled unit, where any is sampled.
#[derive(Clone, Copy)]
pub enum Told {
    Within(Bound),
    UpTo(Option<Key>),
}

// What tells who is sampled under a start; z is the number of units without a key and of those to sample.
pub fn tell(keyed: &Keyed, z: usize) -> Told
    requires { 0 < keyed.now.setting.n → count (keyless keyed.now.gaps.now) (size_of keyed.now) + keyed.now.setting.n ≡ z }
    ensures { over Tells keyed.now result }
{
    if let Some(found) = draw_list::find(keyed, z) {
        return Told::Within(found.bound);
    }
    let mut units = [0usize; MOST_PANEL];
    Told::UpTo(draw_order::sampled_units(keyed, &mut units))
}

impl Told {
    // Unit i is sampled. Inlined, so that a pass over many units asks once which of the two tells.
    #[inline(always)]
    pub fn is_sampled(&self, keyed: &Keyed, i: usize) -> bool
        requires { over Tells keyed.now self.now × (i < size_of keyed.now) }
        ensures { result ≡ over sampled_of keyed.now i }
    {
        match self {
            Told::UpTo(last) => draw_order::is_sampled(keyed, *last, i),
            Told::Within(bound) => keyed.has_key(i) && draw_bound::is_within(keyed, *bound, i),
        }
    }
}
