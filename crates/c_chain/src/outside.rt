// Open with an outside share, which leaves a chain record in a lent list.
ghost use Rattle.std.specs.Prelude.{◌≡◌};
ghost use Rattle.rules.specs.Panel.{with_domain};
ghost use Rattle.c_chain.specs.Record.{opened_number, opened_list};

use c_values::record;
use chain_open::Panel;
use chain_open_input::Lists;
use chain_share::Outside;
use refusals::Refusal;

// Opens a chain in a lent record with an outside share; a mark that is not 0 says that the unit was sampled.
#[unsafe(no_mangle)]
pub extern "C" fn vougecress_open_outside(
    weights: &[u64],
    shares: &[u32],
    relatives: &[u32],
    start: u64,
    sampled: &[u8],
    domain: u32,
    lent: &mut [u64],
) -> u32
    ensures value { result ≡ opened_number (with_domain domain sampled.now weights.now shares.now relatives.now) start lent.old }
    ensures lent_after { lent.new ≡ opened_list (with_domain domain sampled.now weights.now shares.now relatives.now) start lent.old }
{
    if lent.len() < record::RECORD {
        return u32::from(Refusal::ResultBuffer);
    }
    let lists = Lists {
        weights,
        shares,
        relatives,
    };
    let outside = Outside {
        marks: sampled,
        domain,
    };
    let panel = Panel {
        lists,
        outside: Some(outside),
    };
    record::lay_opened(panel.open(start), lent)
}
