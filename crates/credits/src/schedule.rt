ghost use Rattle.credits.specs.Chains.{over_limit, schedule_fault};
ghost use Rattle.credits.specs.Faults.{Answers};

use crate::faults::{CreditFault, Scheduled};

/// The largest demand, supply and day-ahead portion.
pub const MAX_SCHEDULED_MILLI_MWH: u32 = 1_000_000;

/// What was scheduled under a contract in an hour, in thousandths of a MWh: total demand, total supply, and the portion
/// that the day-ahead market balanced already.
#[derive(Clone, Copy, Debug, PartialEq, Eq)]
pub struct Schedule {
    pub demand: u32,
    pub supply: u32,
    pub day_ahead: u32,
}

impl Schedule {
    // Refuses the first quantity that is over its limit.
    pub(crate) fn check(self) -> Result<(), CreditFault>
        ensures { Answers (schedule_fault self) tt result }
    {
        within_limit(Scheduled::Demand, self.demand)?;
        within_limit(Scheduled::Supply, self.supply)?;
        within_limit(Scheduled::DayAhead, self.day_ahead)
    }
}

// Refuses a quantity of the schedule over its limit.
fn within_limit(quantity: Scheduled, amount: u32) -> Result<(), CreditFault>
    ensures { Answers (over_limit quantity amount) tt result }
{
    if amount > MAX_SCHEDULED_MILLI_MWH {
        return Err(CreditFault::Quantity(quantity));
    }
    Ok(())
}
