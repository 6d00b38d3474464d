// An amount that is divided over weights.
ghost use Rattle.std.specs.Prelude.{◌≡◌, ◌*◌, ◌/◌, ◌%◌, ◌^◌, ◌<◌, ◌≤◌, length, sum, slice_index, unsigned_abs, IsSome, IfSome, ◌↔◌};
ghost use Rattle.std.specs.Int.NonZero.{non_zero_u64_get};
ghost use Rattle.rounding.specs.Nearest.{signed};
ghost use Rattle.sharing.specs.Sharing.{Within, Ready, portion};
ghost use Rattle.sharing.specs.Rate.{rate_at};
ghost use Rattle.sharing.specs.LargestRemainder.{whole, left, spare, ahead, rank, largest_cents};

use crate::bounds::bounded_total;
use rounding::{nearest_by, with_sign};
use std::num::NonZeroU64;

// An amount and the weights that it is divided over, inside the bounds of the rules, with the total of the weights. What
// is divided is the size of the amount; `signed` puts the sign back. A weight is named by its place, a plain index (a type
// of places would be made anew at each step of a loop), and so a loop that writes the shares counts places: after a `zip`
// with `shares.iter_mut()` a proof knows nothing of the shares. The cells are handed in beside it: for a struct of both,
// which holds a `&mut` and has a ghost field, the check makes no proof.
#[derive(Clone, Copy, Debug)]
pub(super) struct Division<'a> {
    pub(super) amount: i64,
    pub(super) weights: &'a [u32],
    total: NonZeroU64,
    ghost within: { Within amount weights.now },
    ghost all: { non_zero_u64_get total ≡ sum weights.now },
}

impl<'a> Division<'a> {
    // The division, if a rule shares the amount over the weights into a table of that many cells.
    pub(super) fn of(amount: i64, weights: &'a [u32], cells: usize) -> Option<Division<'a>>
        ensures ready { IsSome result ↔ Ready amount weights.now cells }
        ensures amount { IfSome result (λ d. d.amount ≡ amount) }
        ensures weights { IfSome result (λ d. d.weights.now ≡ weights.now) }
    {
        if cells != weights.len() {
            return None;
        }
        let total = bounded_total(amount, weights).ok()?;
        Some(Division {
            amount,
            weights,
            total,
        })
    }

    // The size of the amount.
    fn size(&self) -> u64
        ensures { result ≡ unsigned_abs self.now.amount }
    {
        self.amount.unsigned_abs()
    }

    // That many cents with the sign of the amount.
    pub(super) fn signed(&self, cents: u64) -> i64
        requires { cents ≤ unsigned_abs self.now.amount }
        ensures { result ≡ signed self.now.amount cents }
    {
        with_sign(self.amount, cents).unwrap()
    }

    // What `part` of the total gets, rounded down. A part of 32 bits times the size fits 64 bits.
    pub(super) fn portion(&self, part: u64) -> u64
        requires { part < 2 ^ 32 }
        ensures { result ≡ portion (unsigned_abs self.now.amount) self.now.weights.now part }
    {
        self.size() * part / self.total
    }

    // The nearest of amount × weight ÷ total for the weight at place `i`.
    pub(super) fn nearest_share(&self, i: usize) -> i64
        requires { i < length self.now.weights.now }
        ensures value { result ≡ rate_at self.now.amount self.now.weights.now i }
        ensures small { unsigned_abs result ≤ 1000000000 * slice_index self.now.weights.now i }
    {
        nearest_by(self.amount * i64::from(self.weights[i]), self.total)
    }

    // What the division at place `i` leaves.
    fn remainder(&self, i: usize) -> u64
        requires { i < length self.now.weights.now }
        ensures { result ≡ left (unsigned_abs self.now.amount) self.now.weights.now i }
    {
        self.size() * u64::from(self.weights[i]) % self.total
    }

    // The cents that are left when each weight has its whole cents.
    pub(super) fn spare(&self) -> u64
        ensures { result ≡ spare (unsigned_abs self.now.amount) self.now.weights.now }
    {
        let whole: u64 = self
            .weights
            .iter()
            .map(|w| self.portion(u64::from(*w)))
            .sum();
        self.size() - whole
    }

    // Whether place `j` comes before place `i` for a spare cent, where `own` is what the division at place `i` leaves.
    fn comes_before(&self, j: usize, i: usize, own: u64) -> bool
        requires other { j < length self.now.weights.now }
        requires own { own ≡ left (unsigned_abs self.now.amount) self.now.weights.now i }
        ensures { result ≡ ahead (unsigned_abs self.now.amount) self.now.weights.now j i }
    {
        let other = self.remainder(j);
        other > own || other == own && j < i
    }

    // How many places come before place `i` for a spare cent. They are counted and not sorted, since nothing is allocated
    // here, and the rule's law speaks of this count. Each pair of places is compared, so what the division at `i` leaves is
    // taken once, and a place adds 0 or 1 with no branch.
    fn rank(&self, i: usize) -> u64
        requires { i < length self.now.weights.now }
        ensures { result ≡ rank (unsigned_abs self.now.amount) self.now.weights.now i }
    {
        let own = self.remainder(i);
        (0..self.weights.len())
            .map(|j| u64::from(self.comes_before(j, i, own)))
            .sum()
    }

    // The cents of place `i`: its whole cents, and one of the `k` spare cents if fewer than `k` places come before it.
    pub(super) fn cents(&self, i: usize, k: u64) -> u64
        requires place { i < length self.now.weights.now }
        requires spare { k ≡ spare (unsigned_abs self.now.amount) self.now.weights.now }
        ensures { result ≡ largest_cents (unsigned_abs self.now.amount) self.now.weights.now i }
    {
        self.portion(u64::from(self.weights[i])) + u64::from(self.rank(i) < k)
    }
}
