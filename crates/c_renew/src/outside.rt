// A renewal with an outside share on a lent record.
ghost use Rattle.std.specs.Prelude.{◌≡◌};
ghost use Rattle.rules.specs.Panel.{with_domain};
ghost use Rattle.c_renew.specs.Record.{renewed_number, renewed_list};

use c_values::record;
use chain_open::Panel;
use chain_open_input::Lists;
use chain_share::Outside;
use refusals::Refusal;

// Opens new weights from a lent record with an outside share; a mark that is not 0 says that the unit was sampled.
#[unsafe(no_mangle)]
pub extern "C" fn vougecress_renew_outside(
    weights: &[u64],
    shares: &[u32],
    relatives: &[u32],
    sampled: &[u8],
    domain: u32,
    lent: &mut [u64],
) -> u32
    ensures value { result ≡ renewed_number (with_domain domain sampled.now weights.now shares.now relatives.now) lent.old }
    ensures lent_after { lent.new ≡ renewed_list (with_domain domain sampled.now weights.now shares.now relatives.now) lent.old }
{
    if lent.len() < record::RECORD {
        return u32::from(Refusal::State);
    }
    let mut held = record::load(lent);
    let lists = Lists {
        weights,
        shares,
        relatives,
    };
    let outside = Outside {
        marks: sampled,
        domain,
    };
    let panel = Panel {
        lists,
        outside: Some(outside),
    };
    let refusal = match chain_renew::renew_lent(&mut held, &panel) {
        Ok(()) => 0,
        Err(why) => u32::from(why),
    };
    record::lay(refusal, held, lent);
    refusal
}
