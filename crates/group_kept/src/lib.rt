// Firms at the border (document 02, [9]; 001, the end of section 4.2): the take-all group of a frame with a threshold γ and the take-all lists of up to two
// previous draws. The further search that the request words takes nobody (proofs/Enlarged.antt), so none runs. With no lists it is the base group.
#![tactic(auto)]

ghost use Rattle.std.specs.Prelude.{◌≡◌, ◌-◌, ◌≤◌, length};
ghost use Rattle.group_kept.specs.Kept.{Enlargeable, IsEnlarged, turnover_of, Outside};
ghost use Rattle.group_kept.specs.TakeAll.{over};

use group::{Group, TAKE_ALL};
use group_border::{Border, TWO_LISTS};
use group_keeping::Keeping;

// What a take-all group with previous lists is found from: a frame's unit numbers and turnovers, the panel size, and what is taken of previous draws.
#[derive(Clone, Copy)]
pub struct TakeAll<'a> {
    pub numbers: &'a [u32],
    pub turnovers: &'a [u64],
    pub z: usize,
    pub keeping: Keeping<'a>,
}

// The rest turnover without listed units. (`map` and `sum` were tried: that the closure may be called at each unit was not shown.)
fn less(turnovers: &[u64], units: &[usize], rest: u64) -> u64
    requires { Outside turnovers.now units.now rest }
    ensures { result ≡ rest - turnover_of turnovers.now units.now }
{
    let mut left = rest;
    for &i in units {
        left -= turnovers[i];
    }
    left
}

impl TakeAll<'_> {
    // The enlarged group, and a mark for each unit, a byte as those that the C interface lends to take-all: 1 in the group and 0 outside. Where all n places are
    // kept nobody is sampled, though units remain outside.
    pub fn find_enlarged(&self, marks: &mut [u8]) -> Group
        requires { over Enlargeable self.now × (length self.now.turnovers.now ≤ length marks.old) }
        ensures { over IsEnlarged self.now marks.new result }
    {
        let g = group::find_group(self.turnovers, self.z, marks);
        let border = Border {
            numbers: self.numbers,
            turnovers: self.turnovers,
            marks,
            group: g,
            keeping: self.keeping,
        };
        let mut places = [0usize; TWO_LISTS];
        let many = border.candidates(&mut places);
        // "At most n are kept"
        let kept = g.n.min(many);
        selection::mark(&places[..kept], TAKE_ALL, marks);
        let q = g.q + kept;
        if g.n <= kept {
            return Group { q, n: 0, rest: 0 };
        }
        let n = g.n - kept;
        let rest = less(self.turnovers, &places[..kept], g.rest);
        Group { q, n, rest }
    }
}
