// Document 02, [14], for callers in C: a register of comma lines into three lent lists or a lent list of units.
// include/vougecress.h documents it for its caller.
#![tactic(auto)]

ghost use Rattle.std.specs.Prelude.{◌≡◌, length};
ghost use Rattle.frame_lines.specs.Value.{imported_from, units_after};
ghost use Rattle.rules.specs.Register.{imported, room_of, imported_numbers, imported_turnovers, imported_randoms};
ghost use Rattle.c_lines.specs.Answer.{register_from};

use frame_lines::{ImportError, Unit};
use refusals::Refusal;

// The count where nothing refuses; the offset of the first bad line where 34 does.
#[repr(C)]
#[derive(Drop)]
pub struct Register {
    pub refusal: u32,
    pub count: u64,
    pub offset: u64,
}

impl From<Result<usize, ImportError>> for Register {
    ghost from_gives = { λ answer result. result ≡ register_from (imported_from answer) };

    fn from(answer: Result<usize, ImportError>) -> Register {
        match answer {
            Ok(n) => Register {
                refusal: 0,
                count: n as u64,
                offset: 0,
            },
            Err(ImportError::BadLine(at)) => Register {
                refusal: u32::from(Refusal::RegisterLine),
                count: 0,
                offset: at as u64,
            },
            Err(ImportError::TooMany) => Register {
                refusal: u32::from(Refusal::RegisterRoom),
                count: 0,
                offset: 0,
            },
        }
    }
}

// Each line fills one place of the three lists.
#[unsafe(no_mangle)]
pub extern "C" fn vougecress_import(
    text: &[u8],
    numbers: &mut [u32],
    turnovers: &mut [u64],
    randoms: &mut [u32],
) -> Register
    ensures value { result ≡ register_from (imported text.now (room_of numbers.old turnovers.old randoms.old)) }
    ensures numbers_after { numbers.new ≡ imported_numbers text.now numbers.old turnovers.old randoms.old }
    ensures turnovers_after { turnovers.new ≡ imported_turnovers text.now numbers.old turnovers.old randoms.old }
    ensures randoms_after { randoms.new ≡ imported_randoms text.now numbers.old turnovers.old randoms.old }
{
    Register::from(frame_lines::import_lists(text, numbers, turnovers, randoms))
}

// Each line fills one unit of the list.
#[unsafe(no_mangle)]
pub extern "C" fn vougecress_import_units(text: &[u8], list: &mut [Unit]) -> Register
    ensures { (result ≡ register_from (imported text.now (length list.old)))
        × (list.new ≡ units_after text.now list.old) }
{
    Register::from(frame_lines::import_units(text, list))
}
