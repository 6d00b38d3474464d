// Sharing rules: how an amount of cents is shared over weights, as a fund over the demand of those who bear it.
//
// `SharingRule` is what every rule owes, and `ExactRule` what a rule owes that never leaves a rest. The three rules are
// `RateRule`, `LargestRemainderRule` and `RunningRule`; the last two are exact.
#![tactic(auto)]

mod bounds;
mod division;
mod largest_remainder;
mod rate;
mod rule;
mod running;

pub use bounds::{MAX_AMOUNT_CENTS, MAX_TOTAL_WEIGHT, OutOfBounds, check_bounds, total_weight};
pub use largest_remainder::LargestRemainderRule;
pub use rate::RateRule;
pub use rule::{ExactRule, SharingRule};
pub use running::RunningRule;
