// Document 02, [10], for callers in C: the sample shared over sectors. include/vougecress.h documents it for its caller.

ghost use Rattle.std.specs.Prelude.{◌≡◌};
ghost use Rattle.rules.specs.Allocation.{sharing};
ghost use Rattle.c_sample.specs.Sample.{sample_from};

use c_sample::Sample;

// T interviews shared over sectors by strengths and minima.
#[unsafe(no_mangle)]
pub extern "C" fn vougecress_sample(interviews: u64, strengths: &[u64], minima: &[u64]) -> Sample
    ensures { result ≡ sample_from (sharing interviews strengths.now minima.now) }
{
    c_sample::vougecress_sample(interviews, strengths, minima)
}
