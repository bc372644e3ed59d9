// A renewal on a lent record.
ghost use Rattle.std.specs.Prelude.{◌≡◌};
ghost use Rattle.rules.specs.Panel.{plain};
ghost use Rattle.c_renew.specs.Record.{renewed_number, renewed_list};

use c_values::record;
use chain_open::Panel;
use chain_open_input::Lists;
use refusals::Refusal;

// Opens new weights from a lent record, and lays their record over it.
#[unsafe(no_mangle)]
pub extern "C" fn vougecress_renew(
    weights: &[u64],
    shares: &[u32],
    relatives: &[u32],
    lent: &mut [u64],
) -> u32
    ensures value { result ≡ renewed_number (plain weights.now shares.now relatives.now) lent.old }
    ensures lent_after { lent.new ≡ renewed_list (plain weights.now shares.now relatives.now) lent.old }
{
    if lent.len() < record::RECORD {
        return u32::from(Refusal::State);
    }
    let mut held = record::load(lent);
    let lists = Lists {
        weights,
        shares,
        relatives,
    };
    let panel = Panel {
        lists,
        outside: None,
    };
    let refusal = match chain_renew::renew_lent(&mut held, &panel) {
        Ok(()) => 0,
        Err(why) => u32::from(why),
    };
    record::lay(refusal, held, lent);
    refusal
}
