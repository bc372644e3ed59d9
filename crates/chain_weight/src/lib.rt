// Document 01, "Chain record" and its refusals: tests of one unit, of which the passes over all units are made (crate `chain_sums`).
// A mark is 0 for an absent unit: its share at the open, its weight later.
#![tactic(auto)]

ghost use Rattle.std.specs.Prelude.{◌≡◌};
ghost use Rattle.rules.specs.Chain.{bad_relative, bad_weight};

use chain_relative::Relative;
use limits::LEAST_WEIGHT;

// 21: a present unit's weight below the least.
pub fn bad_weight(mark: u64, weight: u64) -> bool
    ensures { result ≡ bad_weight mark weight }
{
    mark != 0 && weight < LEAST_WEIGHT
}

// 13: a present unit's relative out of range, or an absent unit's that is not 0.
pub fn bad_relative(mark: u64, p: u32) -> bool
    ensures { result ≡ bad_relative mark p }
{
    if mark == 0 {
        return p != 0;
    }
    Relative::try_from(p).is_err()
}
