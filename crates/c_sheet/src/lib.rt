// Document 02, [12], for callers in C: a line of the quarterly sheet. include/vougecress.h documents it for its caller.
#![tactic(auto)]

ghost use Rattle.std.specs.Prelude.{◌≡◌};
ghost use Rattle.rules.specs.Sheet.{sheet_answer, sheet_bytes};
ghost use Rattle.text_sheet.specs.Answer.{answer_from};
ghost use Rattle.c_sheet.specs.Laid.{laid_from};

use refusals::Refusal;
use text_change::Change;

#[repr(C)]
#[derive(Drop)]
pub struct Laid {
    pub refusal: u32,
    pub change: i64,
    pub rest: u64,
}

impl From<Result<Change, Refusal>> for Laid {
    ghost from_gives = { λ answer result. result ≡ laid_from (answer_from answer) };

    fn from(answer: Result<Change, Refusal>) -> Laid {
        match answer {
            Ok(change) => Laid {
                refusal: 0,
                change: change.hundredths,
                rest: change.rest,
            },
            Err(why) => Laid {
                refusal: u32::from(why),
                change: 0,
                rest: 0,
            },
        }
    }
}

// The line in the first 49 bytes of a lent buffer.
#[unsafe(no_mangle)]
pub extern "C" fn vougecress_sheet(name: &[u8], new: u64, old: u64, out: &mut [u8]) -> Laid
    ensures value { result ≡ laid_from (sheet_answer name.now new old out.old) }
    ensures out_after { out.new ≡ sheet_bytes name.now new old out.old }
{
    Laid::from(text_sheet::line(name, new, old, out))
}
