// Document 02, [13], for callers in C: the test load. include/vougecress.h documents it for its caller.

ghost use Rattle.std.specs.Prelude.{◌≡◌};
ghost use Rattle.rules.specs.Load.{load_answer, load_numbers, load_turnovers, load_randoms};
ghost use Rattle.c_load.specs.Loaded.{loaded_from};

use c_load::Loaded;

// The generated frame in the first `count` places of three lent lists.
#[unsafe(no_mangle)]
pub extern "C" fn vougecress_load(
    start: u64,
    count: usize,
    numbers: &mut [u32],
    turnovers: &mut [u64],
    randoms: &mut [u32],
) -> Loaded
    ensures value { result ≡ loaded_from (load_answer start count numbers.old turnovers.old randoms.old) }
    ensures numbers_after { numbers.new ≡ load_numbers start count numbers.old turnovers.old randoms.old }
    ensures turnovers_after { turnovers.new ≡ load_turnovers start count numbers.old turnovers.old randoms.old }
    ensures randoms_after { randoms.new ≡ load_randoms start count numbers.old turnovers.old randoms.old }
{
    c_load::vougecress_load(start, count, numbers, turnovers, randoms)
}
