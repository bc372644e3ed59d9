// The chain record as a lent list: units, index, closes and links, and then its 100 weights.
ghost use Rattle.std.specs.Prelude.{◌≡◌, ◌≤◌, length};
ghost use Rattle.rules.specs.Refusals.{written};
ghost use Rattle.chain.specs.Record.{record_of};
ghost use Rattle.c_values.specs.Record.{record_places, record_in, record_list, opening_number, opened_list};

use chain::Chain;
use chain_record::Numbers;
use limits::MOST_PANEL;
use refusals::Refusal;

// Places of a record.
pub const RECORD: usize = 104;

// The places before the weights.
pub const BEFORE: usize = 4;

// The record that a lent list holds.
pub fn load(lent: &[u64]) -> Chain
    requires { record_places ≤ length lent.now }
    ensures { record_of result ≡ record_in lent.now }
{
    let mut weights = [0u64; MOST_PANEL];
    weights.copy_from_slice(&lent[BEFORE..RECORD]);
    Chain {
        weights,
        numbers: Numbers {
            units: lent[0] as usize,
            index: lent[1],
            closes: lent[2],
            links: lent[3],
        },
    }
}

// Lays a record into a lent list; what is beyond its places stays.
fn store(chain: Chain, lent: &mut [u64])
    requires { record_places ≤ length lent.old }
    ensures { lent.new ≡ written 0 (record_list (record_of chain)) lent.old }
{
    let numbers = chain.numbers;
    lent[0] = numbers.units as u64;
    lent[1] = numbers.index;
    lent[2] = numbers.closes;
    lent[3] = numbers.links;
    lent[BEFORE..RECORD].copy_from_slice(&chain.weights);
}

// What a close, a year or a renewal leaves in a lent list: its record, or after a refusal the list as it was.
pub fn lay(refusal: u32, chain: Chain, lent: &mut [u64])
    requires { record_places ≤ length lent.old }
    ensures { lent.new ≡ written refusal (record_list (record_of chain)) lent.old }
{
    if refusal == 0 {
        store(chain, lent);
    }
}

// What an opening leaves in a lent list: the new record, or after a refusal the list as it was. The number is the refusal's, or 0.
pub fn lay_opened(opened: Result<Chain, Refusal>, lent: &mut [u64]) -> u32
    requires { record_places ≤ length lent.old }
    ensures value { result ≡ opening_number opened }
    ensures lent_after { lent.new ≡ opened_list opened lent.old }
{
    match opened {
        Ok(chain) => {
            store(chain, lent);
            0
        }
        Err(why) => u32::from(why),
    }
}
