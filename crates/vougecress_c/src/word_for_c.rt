// Document 02, [3], for callers in C: the word at the front of a part. include/vougecress.h documents it for its caller.

ghost use Rattle.std.specs.Prelude.{◌≡◌};
ghost use Rattle.rules.specs.Word.{word_of};
ghost use Rattle.c_word.specs.Found.{found_from};

use c_word::Found;

#[unsafe(no_mangle)]
pub extern "C" fn vougecress_word(part: &[u8]) -> Found
    ensures { result ≡ found_from (word_of part.now) }
{
    c_word::vougecress_word(part)
}
