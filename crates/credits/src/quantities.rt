ghost use Rattle.std.specs.Prelude.{◌≡◌, ◌<◌, ◌≤◌, pos, ◌-ℤ◌, ◌*ℤ◌, MatchOption, unsigned_abs};
ghost use Rattle.credits.specs.Legs.{leg};

use crate::prices::Price;
use rounding::nearest;

/// The largest balanced quantity, either way, in thousandths of a MWh.
pub const MAX_QUANTITY_MILLI_MWH: u64 = 1_000_000;

// A thousandth of a MWh times a hundred-thousandth of a dollar is a millionth of a cent.
const MILLIONTHS_PER_CENT: u64 = 1_000_000;

/// A balanced quantity, in thousandths of a MWh, from -1,000,000 to 1,000,000.
#[derive(Clone, Copy, Debug, PartialEq, Eq)]
pub struct BalancedQuantity {
    pub milli_mwh: i64,
    ghost bound: { unsigned_abs milli_mwh ≤ 1000000 },
}

impl BalancedQuantity {
    /// The quantity, unless it is beyond the largest one.
    pub fn new(milli_mwh: i64) -> Option<BalancedQuantity>
        ensures { MatchOption result (1000000 < unsigned_abs milli_mwh) (λ q. q.milli_mwh ≡ milli_mwh) }
    {
        if milli_mwh.unsigned_abs() > MAX_QUANTITY_MILLI_MWH {
            return None;
        }
        Some(BalancedQuantity { milli_mwh })
    }

    // What a chain carries less what the day-ahead market balanced, which may be the larger.
    pub(crate) fn less_day_ahead(flow: u32, day_ahead: u32) -> BalancedQuantity
        requires flow { flow ≤ 1000000 }
        requires day_ahead { day_ahead ≤ 1000000 }
        ensures { result.milli_mwh ≡ pos flow -ℤ pos day_ahead }
    {
        BalancedQuantity {
            milli_mwh: i64::from(flow) - i64::from(day_ahead),
        }
    }

    // Quantity × price, in millionths of a cent.
    fn value(self, price: Price) -> i64
        ensures { result ≡ self.milli_mwh *ℤ price.millicents }
    {
        self.milli_mwh * price.millicents
    }

    // The leg at a price, in cents. (The divisor is tested here, since a constant cannot be made by `NonZeroU64::new`.)
    #[tactic(auto, using(crate::proofs::Casts::casts, crate::proofs::LegLimits::leg_le), unfolding(crate::specs::Legs::leg))]
    pub(crate) fn leg(self, price: Price) -> i64
        ensures value { result ≡ leg self.milli_mwh price.millicents }
        ensures small { unsigned_abs result ≤ 100000000 }
    {
        nearest(self.value(price), MILLIONTHS_PER_CENT).unwrap()
    }
}
