// The running rule.
ghost use Rattle.std.specs.Prelude.{◌≡◌, ◌-◌, ◌≤◌, length, pos, unsigned_abs};
ghost use Rattle.rounding.specs.Nearest.{signed};
ghost use Rattle.sharing.specs.Sharing.{Ready, Unique, Shared, rest_of};
ghost use Rattle.sharing.specs.Running.{running, RunningShares};
ghost use Rattle.sharing.specs.RunningLaw.{running_cent, running_exact};

use crate::division::Division;
use crate::rule::{ExactRule, SharingRule};

/// A weight gets what the weights up to it get together, less what those before it get together, each rounded down.
#[derive(Clone, Copy, Debug, PartialEq, Eq)]
pub struct RunningRule;

// The cents from `before` up to `reached`, with the sign of the amount.
fn step(division: &Division, before: u64, reached: u64) -> i64
    requires up { before ≤ reached }
    requires within { reached - before ≤ unsigned_abs division.now.amount }
    ensures { result ≡ signed division.now.amount (reached - before) }
{
    division.signed(reached - before)
}

// Writes the shares, which leave no rest.
fn share_by_running(division: &Division, shares: &mut [i64])
    requires { length shares.old ≡ length division.now.weights.now }
    ensures shares { shares.new ≡ running division.now.amount division.now.weights.now }
    ensures rest { rest_of division.now.amount (running division.now.amount division.now.weights.now) ≡ pos 0 }
    ensures law { Unique (RunningShares division.now.amount division.now.weights.now) shares.new }
{
    let mut sum = 0;
    let mut before = 0;
    for (i, share) in shares.iter_mut().enumerate() {
        sum += u64::from(division.weights[i]);
        let reached = division.portion(sum);
        *share = step(division, before, reached);
        before = reached;
    }
}

impl SharingRule for RunningRule {
    ghost meaning = { λ _. running };

    ghost cent = { λ r f ws w. running_cent f ws w };

    fn share(&self, amount: i64, weights: &[u32], shares: &mut [i64]) -> i64
        ensures rule { Shared running amount weights.now shares.old shares.new result }
        ensures law { Ready amount weights.now (length shares.old) → Unique (RunningShares amount weights.now) shares.new }
    {
        // Each rule has this guard: a method of the interface that only writes would ask its caller for a division, and no
        // public call asks anything.
        let Some(division) = Division::of(amount, weights, shares.len()) else {
            return amount;
        };
        share_by_running(&division, shares);
        0
    }
}

impl ExactRule for RunningRule {
    ghost exact = { λ r f ws w. running_exact f ws w };
}
