// The rate rule.
ghost use Rattle.std.specs.Prelude.{◌≡◌, length};
ghost use Rattle.sharing.specs.Sharing.{Ready, Unique, Shared, rest_of};
ghost use Rattle.sharing.specs.Rate.{rate, NearestShares};
ghost use Rattle.sharing.specs.RateLaw.{rate_cent};

use crate::division::Division;
use crate::rule::SharingRule;

/// Each share is the nearest of amount × weight ÷ total, so that every weight pays the same rate; what the roundings
/// leave is the rest.
#[derive(Clone, Copy, Debug, PartialEq, Eq)]
pub struct RateRule;

// Writes the shares, and answers the rest.
fn share_by_rate(division: &Division, shares: &mut [i64]) -> i64
    requires { length shares.old ≡ length division.now.weights.now }
    ensures shares { shares.new ≡ rate division.now.amount division.now.weights.now }
    ensures rest { result ≡ rest_of division.now.amount (rate division.now.amount division.now.weights.now) }
    ensures law { Unique (NearestShares division.now.amount division.now.weights.now) shares.new }
{
    let mut rest = division.amount;
    for (i, share) in shares.iter_mut().enumerate() {
        *share = division.nearest_share(i);
        rest -= *share;
    }
    rest
}

impl SharingRule for RateRule {
    ghost meaning = { λ _. rate };

    ghost cent = { λ r f ws w. rate_cent f ws w };

    fn share(&self, amount: i64, weights: &[u32], shares: &mut [i64]) -> i64
        ensures rule { Shared rate amount weights.now shares.old shares.new result }
        ensures law { Ready amount weights.now (length shares.old) → Unique (NearestShares amount weights.now) shares.new }
    {
        // Each rule has this guard: a method of the interface that only writes would ask its caller for a division, and no
        // public call asks anything.
        let Some(division) = Division::of(amount, weights, shares.len()) else {
            return amount;
        };
        share_by_rate(&division, shares)
    }
}
