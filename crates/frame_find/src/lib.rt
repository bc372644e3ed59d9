// Where a number stands in a rising list: found by halves.
#![tactic(auto)]

ghost use Rattle.std.specs.Prelude.{◌≡◌, true};
ghost use Rattle.rules.specs.Lists.{rising};
ghost use Rattle.frame_find.specs.Found.{Found};

// The place of a number in a rising list, if it stands there.
pub fn find(list: &[u32], number: u32) -> Option<usize>
    requires { rising list.now ≡ true }
    ensures { Found list.now number result }
{
    list.binary_search(&number).ok()
}
