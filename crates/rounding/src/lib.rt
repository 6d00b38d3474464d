// The whole number nearest to a quotient, a half going away from zero.
//
// Rounding to the nearest is done here and nowhere else, so that two amounts cannot be rounded in two ways.
#![tactic(auto)]

mod halves;

ghost use Rattle.std.specs.Prelude.{◌≡◌, ◌<◌, ◌≤◌, MatchOption, unsigned_abs};
ghost use Rattle.std.specs.Int.NonZero.{non_zero_u64_get};
ghost use Rattle.std.specs.Option.{SomeIff};
ghost use Rattle.rounding.specs.Nearest.{signed, Rounded};

use halves::nearest_quotient;
use std::num::NonZeroU64;

// A part of `n`: `size` with the sign of `n`; `None` where `size` is larger than that of `n`.
pub fn with_sign(n: i64, size: u64) -> Option<i64>
    ensures { SomeIff result (size ≤ unsigned_abs n) (signed n size) }
{
    if size > n.unsigned_abs() {
        return None;
    }
    if n < 0 {
        0i64.checked_sub_unsigned(size)
    } else {
        0i64.checked_add_unsigned(size)
    }
}

// The whole number nearest to `n / d`, a half going away from zero.
pub fn nearest_by(n: i64, d: NonZeroU64) -> i64
    ensures { Rounded n (non_zero_u64_get d) result }
{
    nearest_quotient(n, d)
}

// The same of any divisor; `None` where it is 0.
pub fn nearest(n: i64, d: u64) -> Option<i64>
    ensures { MatchOption result (d ≡ 0) (λ q. (0 < d) × Rounded n d q) }
{
    let d = NonZeroU64::new(d)?;
    Some(nearest_by(n, d))
}

#[cfg(test)]
mod tests {
    use super::*;

    // n, d and the whole number nearest to n / d, worked out by hand
    const FIGURES: [(i64, u64, i64); 14] = [
        (0, 7, 0),
        (1, 2, 1),
        (-1, 2, -1),
        (1, 3, 0),
        (2, 3, 1),
        (-2, 3, -1),
        (5, 2, 3),
        (-5, 2, -3),
        (249, 100, 2),
        (250, 100, 3),
        (-350, 100, -4),
        (9_223_372_036_854_775_807, 1, 9_223_372_036_854_775_807),
        (-9_223_372_036_854_775_808, 1, -9_223_372_036_854_775_808),
        (9_223_372_036_854_775_807, 18_446_744_073_709_551_615, 0),
    ];

    #[test]
    fn figures(rt: HostRuntime) {
        for (n, d, wanted) in FIGURES {
            assert_eq!(rt; nearest(n, d), Some(wanted));
        }
        assert_eq!(rt; nearest(5, 0), None);
        assert_eq!(rt; with_sign(-5, 3), Some(-3));
        assert_eq!(rt; with_sign(5, 6), None);
    }
}
