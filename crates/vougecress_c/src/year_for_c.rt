// Document 02, [6], for callers in C: a year on a lent record. include/vougecress.h documents it for its caller.

ghost use Rattle.std.specs.Prelude.{◌≡◌};
ghost use Rattle.rules.specs.Year.{four_calls};
ghost use Rattle.c_year.specs.Year.{lent_year, year_answer, year_list};

use c_year::Year;

// Three quarters and the close on a lent record; the figures go to the lent buffer.
#[unsafe(no_mangle)]
pub extern "C" fn vougecress_year(
    lent: &mut [u64],
    first: &[u32],
    second: &[u32],
    third: &[u32],
    last: &[u32],
    figures: &mut [u64],
) -> Year
    ensures value { result ≡ year_answer (lent_year lent.old (four_calls first.now second.now third.now last.now) figures.old) }
    ensures lent_after { lent.new ≡ year_list (lent_year lent.old (four_calls first.now second.now third.now last.now) figures.old) lent.old }
    ensures figures_after { figures.new ≡ (lent_year lent.old (four_calls first.now second.now third.now last.now) figures.old).figures }
{
    c_year::vougecress_year(lent, first, second, third, last, figures)
}
