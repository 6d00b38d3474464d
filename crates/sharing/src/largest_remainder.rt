// The largest-remainder rule.
ghost use Rattle.std.specs.Prelude.{◌≡◌, length, pos};
ghost use Rattle.sharing.specs.Sharing.{Ready, Unique, Shared, rest_of};
ghost use Rattle.sharing.specs.LargestRemainder.{largest, LargestFirst};
ghost use Rattle.sharing.specs.LargestLaw.{largest_cent, largest_exact};

use crate::division::Division;
use crate::rule::{ExactRule, SharingRule};

/// A weight gets its whole cents, and the largest remainders one of the spare cents each, lower places first among equals.
#[derive(Clone, Copy, Debug, PartialEq, Eq)]
pub struct LargestRemainderRule;

// Writes the shares, which leave no rest.
fn share_by_remainder(division: &Division, shares: &mut [i64])
    requires { length shares.old ≡ length division.now.weights.now }
    ensures shares { shares.new ≡ largest division.now.amount division.now.weights.now }
    ensures rest { rest_of division.now.amount (largest division.now.amount division.now.weights.now) ≡ pos 0 }
    ensures law { Unique (LargestFirst division.now.amount division.now.weights.now) shares.new }
{
    let spare = division.spare();
    for (i, share) in shares.iter_mut().enumerate() {
        *share = division.signed(division.cents(i, spare));
    }
}

impl SharingRule for LargestRemainderRule {
    ghost meaning = { λ _. largest };

    ghost cent = { λ r f ws w. largest_cent f ws w };

    fn share(&self, amount: i64, weights: &[u32], shares: &mut [i64]) -> i64
        ensures rule { Shared largest amount weights.now shares.old shares.new result }
        ensures law { Ready amount weights.now (length shares.old) → Unique (LargestFirst amount weights.now) shares.new }
    {
        // Each rule has this guard: a method of the interface that only writes would ask its caller for a division, and no
        // public call asks anything.
        let Some(division) = Division::of(amount, weights, shares.len()) else {
            return amount;
        };
        share_by_remainder(&division, shares);
        0
    }
}

impl ExactRule for LargestRemainderRule {
    ghost exact = { λ r f ws w. largest_exact f ws w };
}
