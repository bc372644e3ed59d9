// Document 02, [12], for callers in C: a line of the quarterly sheet. include/vougecress.h documents it for its caller.

ghost use Rattle.std.specs.Prelude.{◌≡◌};
ghost use Rattle.rules.specs.Sheet.{sheet_answer, sheet_bytes};
ghost use Rattle.c_sheet.specs.Laid.{laid_from};

use c_sheet::Laid;

// The line in the first 49 bytes of a lent buffer.
#[unsafe(no_mangle)]
pub extern "C" fn vougecress_sheet(name: &[u8], new: u64, old: u64, out: &mut [u8]) -> Laid
    ensures value { result ≡ laid_from (sheet_answer name.now new old out.old) }
    ensures out_after { out.new ≡ sheet_bytes name.now new old out.old }
{
    c_sheet::vougecress_sheet(name, new, old, out)
}
