// Rounding by quotient and remainder, which overflows nowhere.
ghost use Rattle.std.specs.Prelude.{◌≡◌, ◌+◌, ◌*◌, ◌/◌, ◌%◌, ◌^◌, ◌<◌, ◌≤◌, nat_le};
ghost use Rattle.std.specs.Int.NonZero.{non_zero_u64_get};
ghost use Rattle.rounding.specs.Nearest.{half_up, Rounded};

use super::with_sign;
use std::num::NonZeroU64;

// Whether the remainder `left` of a division by `d` is at least half of `d`.
fn at_least_half(left: u64, d: u64) -> bool
    requires { left < d }
    ensures { result ≡ nat_le d (2 * left) }
{
    left >= d - left
}

// The whole number nearest to `m / d`, a half going up. The size of an `i64` leaves room for one more.
fn half_up(m: u64, d: NonZeroU64) -> u64
    requires { m ≤ 2 ^ 63 }
    ensures { result ≡ half_up m (non_zero_u64_get d) }
{
    m / d + u64::from(at_least_half(m % d, d.get()))
}

// The whole number nearest to `n / d`, with the law that singles it out. It stands apart from `nearest_by`, which hands on
// to it, so that a wrong divisor there fails this contract alone.
pub(super) fn nearest_quotient(n: i64, d: NonZeroU64) -> i64
    ensures { Rounded n (non_zero_u64_get d) result }
{
    with_sign(n, half_up(n.unsigned_abs(), d)).unwrap()
}
