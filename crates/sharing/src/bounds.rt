// The bounds inside which the rules share.
ghost use Rattle.std.specs.Prelude.{◌≡◌, ◌+◌, ◌<◌, ◌≤◌, sum, MatchOption, MatchResult};
ghost use Rattle.std.specs.Int.NonZero.{non_zero_u64_get};
ghost use Rattle.sharing.specs.Sharing.{Within};
ghost use Rattle.sharing.specs.Beyond.{Beyond};

use std::fmt;
use std::num::NonZeroU64;

/// The largest amount that is shared, either way, in cents.
pub const MAX_AMOUNT_CENTS: u64 = 1_000_000_000;

/// The largest total of the weights.
pub const MAX_TOTAL_WEIGHT: u64 = 4_000_000_000;

/// Why no rule shares an amount over weights: the amount is too large either way, no weight is above 0, or the weights
/// are too large together.
#[derive(Clone, Copy, Debug, PartialEq, Eq)]
pub enum OutOfBounds {
    Amount,
    NoWeight,
    TotalWeight,
}

// Written out, since beside the standard library this crate uses `rounding` alone.
impl fmt::Display for OutOfBounds {
    fn fmt<W: fmt::Write>(&self, f: &mut fmt::Formatter<W>) -> fmt::Result {
        match self {
            OutOfBounds::Amount => {
                write!(
                    f,
                    "the amount is beyond {MAX_AMOUNT_CENTS} cents, the largest that is shared"
                )
            }
            OutOfBounds::NoWeight => f.write_str("there is no weight above 0 to share over"),
            OutOfBounds::TotalWeight => {
                write!(
                    f,
                    "the weights together are over {MAX_TOTAL_WEIGHT}, the largest total"
                )
            }
        }
    }
}

// The total with one weight more; `None` where it passes the largest total.
fn add_weight(total: u64, weight: u32) -> Option<u64>
    ensures { MatchOption result (4000000000 < total + weight) (λ t. (t ≡ total + weight) × (t ≤ 4000000000)) }
{
    total
        .checked_add(u64::from(weight))
        .filter(|total| *total <= MAX_TOTAL_WEIGHT)
}

/// The total of the weights; `None` where it passes the largest total. Adding stops at the weight that passes it.
pub fn total_weight(weights: &[u32]) -> Option<u64>
    ensures { MatchOption result (4000000000 < sum weights.now) (λ t. (t ≡ sum weights.now) × (t ≤ 4000000000)) }
{
    weights.iter().try_fold(0, |total, w| add_weight(total, *w))
}

// What `check_bounds` answers, with a total whose type says that it is not 0.
pub(super) fn bounded_total(amount: i64, weights: &[u32]) -> Result<NonZeroU64, OutOfBounds>
    ensures { MatchResult result (λ t. Within amount weights.now × (non_zero_u64_get t ≡ sum weights.now)) (Beyond amount weights.now) }
{
    if amount.unsigned_abs() > MAX_AMOUNT_CENTS {
        return Err(OutOfBounds::Amount);
    }
    let total = total_weight(weights).ok_or(OutOfBounds::TotalWeight)?;
    NonZeroU64::new(total).ok_or(OutOfBounds::NoWeight)
}

/// The total of the weights, if the rules share the amount over them; otherwise the first bound that is broken.
pub fn check_bounds(amount: i64, weights: &[u32]) -> Result<u64, OutOfBounds>
    ensures { MatchResult result (λ t. Within amount weights.now × (t ≡ sum weights.now)) (Beyond amount weights.now) }
{
    bounded_total(amount, weights).map(NonZeroU64::get)
}
