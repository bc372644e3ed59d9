// Document 02, [14], for callers in C: a register of comma lines into three lent lists or a lent list of units.
// include/vougecress.h documents it for its caller.

ghost use Rattle.std.specs.Prelude.{◌≡◌, length};
ghost use Rattle.frame_lines.specs.Value.{units_after};
ghost use Rattle.rules.specs.Register.{imported, room_of, imported_numbers, imported_turnovers, imported_randoms};
ghost use Rattle.c_lines.specs.Answer.{register_from};

use c_lines::Register;
use frame_lines::Unit;

// Each line fills one place of the three lists.
#[unsafe(no_mangle)]
pub extern "C" fn vougecress_import(
    text: &[u8],
    numbers: &mut [u32],
    turnovers: &mut [u64],
    randoms: &mut [u32],
) -> Register
    ensures value { result ≡ register_from (imported text.now (room_of numbers.old turnovers.old randoms.old)) }
    ensures numbers_after { numbers.new ≡ imported_numbers text.now numbers.old turnovers.old randoms.old }
    ensures turnovers_after { turnovers.new ≡ imported_turnovers text.now numbers.old turnovers.old randoms.old }
    ensures randoms_after { randoms.new ≡ imported_randoms text.now numbers.old turnovers.old randoms.old }
{
    c_lines::vougecress_import(text, numbers, turnovers, randoms)
}

// Each line fills one unit of the list.
#[unsafe(no_mangle)]
pub extern "C" fn vougecress_import_units(text: &[u8], list: &mut [Unit]) -> Register
    ensures { (result ≡ register_from (imported text.now (length list.old)))
        × (list.new ≡ units_after text.now list.old) }
{
    c_lines::vougecress_import_units(text, list)
}
