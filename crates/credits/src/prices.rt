// The weighted price of a node.
ghost use Rattle.std.specs.Prelude.{◌≡◌, ◌*◌, ◌≤◌, true, false, ◌+ℤ◌, IfOk, MatchOption, unsigned_abs};
ghost use Rattle.credits.specs.Prices.{node_at, total_deviation, weighed, weighted_sum, plain_mean, weighted_price, within_bounds};
ghost use Rattle.credits.specs.Faults.{node_fault, AnswersBy};
ghost use Rattle.credits.specs.Limits.{Limits, NearestAmounts};
ghost use Rattle.credits.specs.Figures.{Figures};

use crate::faults::PriceFault;
use crate::nodes::NodeRecord;
use rounding::{nearest, nearest_by};
use std::num::NonZeroU64;

/// The largest deviation of a record, in thousandths of a MWh.
pub const MAX_DEVIATION_MILLI_MWH: u32 = 1_000_000;

/// The largest price of a record, either way, in hundred-thousandths of a dollar, which are thousandths of a cent.
pub const MAX_PRICE_MILLICENTS: u64 = 100_000_000;

/// A weighted price, in hundred-thousandths of a dollar, which are thousandths of a cent, from -100,000,000 to 100,000,000.
#[derive(Clone, Copy, Debug, PartialEq, Eq)]
pub struct Price {
    pub millicents: i64,
    ghost bound: { unsigned_abs millicents ≤ 100000000 },
}

// A record with no deviation and no price beyond its limit: such a record has a price.
#[derive(Clone, Copy, Debug)]
struct BoundedRecord {
    hour: NodeRecord,
    ghost bounded: { within_bounds hour ≡ true },
}

impl BoundedRecord {
    // The record, unless a part of it is beyond its limit.
    fn new(hour: NodeRecord) -> Option<BoundedRecord>
        ensures { MatchOption result (within_bounds hour ≡ false) (λ r. r.hour ≡ hour) }
    {
        // Not `then`: in its closure a proof would not know the test.
        if within_bounds(hour) {
            Some(BoundedRecord { hour })
        } else {
            None
        }
    }

    // The sum of the deviations.
    fn total_deviation(self) -> u64
        ensures { result ≡ total_deviation self.hour }
    {
        u64::from(self.hour.fifteen_minute_deviation) + u64::from(self.hour.dispatch_deviation)
    }

    // The sum of price × deviation over both markets.
    fn weighted_sum(self) -> i64
        ensures { result ≡ weighted_sum self.hour }
    {
        let hour = self.hour;
        weighed(hour.fifteen_minute_price, hour.fifteen_minute_deviation)
            + weighed(hour.dispatch_price, hour.dispatch_deviation)
    }

    // The sum of the prices.
    fn price_sum(self) -> i64
        ensures { result ≡ self.hour.fifteen_minute_price +ℤ self.hour.dispatch_price }
    {
        self.hour.fifteen_minute_price + self.hour.dispatch_price
    }

    // The plain mean of the prices. (The divisor is tested here, since a constant cannot be made by `NonZeroU64::new`.)
    fn plain_mean(self) -> i64
        ensures { result ≡ plain_mean self.hour }
    {
        nearest(self.price_sum(), 2).unwrap()
    }

    // The mean of the prices, each weighted by its deviation; where nothing deviated, their plain mean.
    #[tactic(auto, using(crate::proofs::Casts::casts), unfolding(crate::specs::Prices::weighted_price))]
    fn mean(self) -> i64
        ensures { result ≡ weighted_price self.hour }
    {
        match NonZeroU64::new(self.total_deviation()) {
            Some(total) => nearest_by(self.weighted_sum(), total),
            None => self.plain_mean(),
        }
    }

    // The price of the record.
    #[tactic(auto, using(crate::proofs::Casts::casts, crate::proofs::PriceLimits::weighted_price_le))]
    fn weighted_price(self) -> Price
        ensures { result.millicents ≡ weighted_price self.hour }
    {
        Price {
            millicents: self.mean(),
        }
    }
}

// Whether no deviation and no price of the record is beyond its limit.
fn within_bounds(hour: NodeRecord) -> bool
    ensures { result ≡ within_bounds hour }
{
    hour.fifteen_minute_deviation <= MAX_DEVIATION_MILLI_MWH
        && hour.dispatch_deviation <= MAX_DEVIATION_MILLI_MWH
        && hour.fifteen_minute_price.unsigned_abs() <= MAX_PRICE_MILLICENTS
        && hour.dispatch_price.unsigned_abs() <= MAX_PRICE_MILLICENTS
}

// Price × deviation in one market.
fn weighed(price: i64, deviation: u32) -> i64
    requires { unsigned_abs price ≤ 100000000 }
    ensures value { result ≡ weighed price deviation }
    ensures small { unsigned_abs result ≤ 100000000 * deviation }
{
    price * i64::from(deviation)
}

// The record of a node, if it has one within bounds; otherwise the node's fault. The records and the node stay two
// parameters, as a slice and an index: a struct of both would be made for one look-up.
fn bounded_record(nodes: &[NodeRecord], node: usize) -> Result<BoundedRecord, PriceFault>
    ensures { AnswersBy (λ r. r.hour) (node_fault nodes.now node) (node_at nodes.now node) result }
{
    let hour = nodes.get(node).copied().ok_or(PriceFault::NoRecord(node))?;
    BoundedRecord::new(hour).ok_or(PriceFault::OutOfBounds(node))
}

/// The weighted price of a node; or its fault.
#[tactic(auto, using(crate::proofs::Nearests::nearest_amounts, crate::proofs::AllLimits::limits, crate::proofs::Worked::figures))]
pub fn node_price(nodes: &[NodeRecord], node: usize) -> Result<Price, PriceFault>
    ensures answer { AnswersBy (λ p. p.millicents) (node_fault nodes.now node) (weighted_price (node_at nodes.now node)) result }
    ensures small { IfOk result (λ p. unsigned_abs p.millicents ≤ 100000000) }
    ensures nearest { NearestAmounts }
    ensures limits { Limits }
    ensures figures { Figures }
{
    Ok(bounded_record(nodes, node)?.weighted_price())
}
