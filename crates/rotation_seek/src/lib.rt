// Two rising lists gone through side by side: a number of the one is sought in the other from where the last search stopped. Old panel and births are sought
// in a frame's numbers so, and the births' test seeks the frame's numbers in the births' order. (A search by halves for each unit costs a logarithm more.)
#![tactic(auto)]

ghost use Rattle.std.specs.Prelude.{◌≡◌, leb, position};
ghost use Rattle.rotation_seek.specs.Passed.{Passed, Reached};
ghost use Rattle.rotation_seek.specs.Met.{Met};

// A rising list, and the place from which the next number is sought.
#[derive(Drop)]
pub struct Seek<'a> {
    pub list: &'a [u32],
    pub at: usize,
}

// The first place whose number is not below `number`.
fn first(list: &[u32], number: u32) -> Option<usize>
    ensures { result ≡ position (λ x. leb number x) list.now }
{
    list.iter().position(|x| number <= *x)
}

// The first place from `from` on whose number is not below `number`.
fn first_from(list: &[u32], from: usize, number: u32) -> usize
    requires { Passed list.now from number }
    ensures { Reached list.now from number result }
{
    first(&list[from..], number).map_or(list.len(), |k| from + k)
}

impl<'a> Seek<'a> {
    // A list of which nothing is passed yet.
    pub fn new(list: &'a [u32]) -> Seek<'a>
        ensures { (result.list.now ≡ list.now) × (result.at ≡ 0) }
    {
        Seek { list, at: 0 }
    }

    // The number stands in the list. The next one is sought behind it, or from where it would stand.
    pub fn meets(&mut self, number: u32) -> bool
        requires { Passed self.old.list.now self.old.at number }
        ensures { Met self.old self.new number result }
    {
        let place = first_from(self.list, self.at, number);
        let stands = self.list.get(place) == Some(&number);
        self.at = place + usize::from(stands);
        stands
    }
}
