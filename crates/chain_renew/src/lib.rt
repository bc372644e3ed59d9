// Document 02, [11]: a renewal, which opens new weights from a chain record: its C is the start index, its links go onward, its closes begin at 0.
#![tactic(auto)]

ghost use Rattle.std.specs.Prelude.{◌≡◌};
ghost use Rattle.refusals.specs.Number.{refusal_of};
ghost use Rattle.rules.specs.Refusals.{refuse};
ghost use Rattle.rules.specs.Chain.{broken};
ghost use Rattle.rules.specs.Panel.{panel_answer};
ghost use Rattle.rules.specs.Renewal.{with_links, renewal_refusal, renewal_answer, renewal_after};
ghost use Rattle.chain.specs.Record.{record_of};
ghost use Rattle.chain_open.specs.Opened.{opening_of};
ghost use Rattle.chain_open.specs.Panel.{panel_of};
ghost use Rattle.chain_renew.specs.Renewed.{left};

use chain::Chain;
use chain_open::Panel;
use chain_record::Numbers;
use refusals::Refusal;

// 19 of the record that is handed in.
fn judge(chain: &Chain) -> Result<(), Refusal>
    ensures { refusal_of result ≡ refuse (broken (record_of chain.now)) 19 }
{
    if chain.lent().is_broken() {
        return Err(Refusal::State);
    }
    Ok(())
}

// The opened record with the links made before it.
fn carried(opened: Chain, before: Numbers) -> Chain
    ensures { record_of result ≡ with_links before.links (record_of opened) }
{
    Chain {
        numbers: opened.numbers.renewed(before),
        ..opened
    }
}

// The opening of the new weights at the record's C.
fn reopened(chain: &Chain, panel: &Panel) -> Result<Chain, Refusal>
    ensures { opening_of result ≡ panel_answer (panel_of panel.now) (record_of chain.now).index }
{
    panel.open(chain.numbers.index)
}

// A renewal. Nothing of the record but its C and its links goes on; 19 judges all of it. Where it is refused, the caller's record is what it was.
pub fn renew(chain: Chain, panel: &Panel) -> Result<Chain, Refusal>
    ensures result_value { opening_of result ≡ renewal_answer (record_of chain) (panel_of panel.now) }
    ensures chain_value { record_of (left chain result) ≡ renewal_after (record_of chain) (panel_of panel.now) }
{
    judge(&chain)?;
    let opened = reopened(&chain, panel)?;
    Ok(carried(opened, chain.numbers))
}

// The same on a lent record, which a refused renewal leaves as it was. (The opening stands here itself: through `reopened` its record is copied once more.)
pub fn renew_lent(chain: &mut Chain, panel: &Panel) -> Result<(), Refusal>
    ensures answer_value { refusal_of result ≡ renewal_refusal (record_of chain.old) (panel_of panel.now) }
    ensures chain_after { record_of chain.new ≡ renewal_after (record_of chain.old) (panel_of panel.now) }
{
    judge(chain)?;
    let opened = panel.open(chain.numbers.index)?;
    *chain = carried(opened, chain.numbers);
    Ok(())
}
