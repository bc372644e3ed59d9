// Document 02, [10], for callers in C: the sample shared over sectors. include/vougecress.h documents it for its caller.
#![tactic(auto)]

ghost use Rattle.std.specs.Prelude.{◌≡◌};
ghost use Rattle.rules.specs.Allocation.{sharing};
ghost use Rattle.c_sample.specs.Sample.{shown_from, sample_from};

use limits::MOST_SECTORS;
use refusals::Refusal;
use sector_divide::Quotas;
use sector_judge::Sharing;

// The refusal, and the three lists themselves, since C has no struct of ours: `Quotas` with one field more.
#[repr(C)]
#[derive(Drop)]
pub struct Sample {
    pub refusal: u32,
    pub counts: [u64; MOST_SECTORS],
    pub wholes: [u64; MOST_SECTORS],
    pub remainders: [u64; MOST_SECTORS],
}

impl From<Result<Quotas, Refusal>> for Sample {
    ghost from_gives = { λ answer result. result ≡ shown_from answer };

    fn from(answer: Result<Quotas, Refusal>) -> Sample {
        match answer {
            // (A field that is an array is copied into a variable before it is made part of a literal: a rule of the tool.)
            Ok(quotas) => {
                let counts = quotas.counts;
                let wholes = quotas.wholes;
                let remainders = quotas.remainders;
                Sample {
                    refusal: 0,
                    counts,
                    wholes,
                    remainders,
                }
            }
            Err(why) => {
                let none = [0; MOST_SECTORS];
                Sample {
                    refusal: u32::from(why),
                    counts: none,
                    wholes: none,
                    remainders: none,
                }
            }
        }
    }
}

// T interviews shared over sectors by strengths and minima.
#[unsafe(no_mangle)]
pub extern "C" fn vougecress_sample(interviews: u64, strengths: &[u64], minima: &[u64]) -> Sample
    ensures { result ≡ sample_from (sharing interviews strengths.now minima.now) }
{
    let sharing = Sharing {
        interviews,
        strengths,
        minima,
    };
    Sample::from(sector_sample::share(&sharing))
}
