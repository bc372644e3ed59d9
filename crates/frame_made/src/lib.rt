// Document 02, [13]: a test load that both bureaus can make, laid into three lent lists.
#![tactic(auto)]

ghost use Rattle.std.specs.Prelude.{◌≡◌, ◌≤◌, ◌<◌, length};
ghost use Rattle.rules.specs.Limits.{most_frame, state_range};
ghost use Rattle.rules.specs.Refusals.{written};
ghost use Rattle.rules.specs.Load.{stepped, made_numbers, made_turnovers, made_randoms, bad_load, load_answer, load_numbers, load_turnovers, load_randoms};
ghost use Rattle.frame_made.specs.Answer.{answer_from};

use limits::{MOST_FRAME, RANDOM_RANGE, STATE_ADDEND, STATE_FACTOR, STATE_RANGE, TURNOVER_RANGE};
use refusals::Refusal;

// The next state. Its product needs 62 bits.
fn step(s: u64) -> u64
    requires { s < state_range }
    ensures { result ≡ stepped s }
{
    (s * STATE_FACTOR + STATE_ADDEND) % STATE_RANGE
}

// 33, asked of the numbers before the buffers.
fn bad_load(start: u64, count: usize, numbers: usize, turnovers: usize, randoms: usize) -> bool
    ensures { result ≡ bad_load start count numbers turnovers randoms }
{
    STATE_RANGE <= start
        || !(1..=MOST_FRAME).contains(&count)
        || numbers < count
        || turnovers < count
        || randoms < count
}

// Lays the units 1 to count: number, turnover and random number of each, two steps a unit.
// No struct of the three lists: the definitions take them one by one, so each clause would only name them one field deeper.
fn fill(start: u64, count: usize, numbers: &mut [u32], turnovers: &mut [u64], randoms: &mut [u32])
    requires { (start < state_range) × (count ≤ most_frame) × (count ≤ length numbers.old) × (count ≤ length turnovers.old) × (count ≤ length randoms.old) }
    ensures numbers_after { numbers.new ≡ written 0 (made_numbers count 1) numbers.old }
    ensures turnovers_after { turnovers.new ≡ written 0 (made_turnovers count start) turnovers.old }
    ensures randoms_after { randoms.new ≡ written 0 (made_randoms count start) randoms.old }
{
    let mut s = start;
    for i in 0..count {
        let first = step(s);
        let second = step(first);
        numbers[i] = (i + 1) as u32;
        turnovers[i] = first % TURNOVER_RANGE + 1;
        randoms[i] = (second % u64::from(RANDOM_RANGE)) as u32;
        s = second;
    }
}

// The generated frame in the first `count` places of the three lists.
pub fn load(
    start: u64,
    count: usize,
    numbers: &mut [u32],
    turnovers: &mut [u64],
    randoms: &mut [u32],
) -> Result<usize, Refusal>
    ensures result_value { answer_from result ≡ load_answer start count numbers.old turnovers.old randoms.old }
    ensures numbers_after { numbers.new ≡ load_numbers start count numbers.old turnovers.old randoms.old }
    ensures turnovers_after { turnovers.new ≡ load_turnovers start count numbers.old turnovers.old randoms.old }
    ensures randoms_after { randoms.new ≡ load_randoms start count numbers.old turnovers.old randoms.old }
{
    if bad_load(start, count, numbers.len(), turnovers.len(), randoms.len()) {
        return Err(Refusal::TestLoad);
    }
    fill(start, count, numbers, turnovers, randoms);
    Ok(count)
}
