// The interface of the sharing rules.
ghost use Rattle.std.specs.Prelude.{◌≡◌, ℕ, List, length, ℤ, pos};
ghost use Rattle.sharing.specs.Sharing.{Within, Ready, OneCent, Shared, rest_of};

/// A rule that shares an amount of cents over weights. A kind of rule cannot be written without showing the one-cent
/// law, and code that takes any rule is proved from this contract alone.
pub trait SharingRule {
    // The shares of an amount over weights.
    ghost meaning: { Self → ℤ → List ℕ → List ℤ };

    /// Writes the share of each weight into the cell of its place, and answers the rest of the amount. Outside the
    /// bounds, or with a table that is not as long as the weights, it writes nothing and answers the amount: a plain
    /// amount and no `Result`, so that what is left is booked in one way, whether or not shares were written.
    fn share(&self, amount: i64, weights: &[u32], shares: &mut [i64]) -> i64
        ensures { Shared (meaning self.now) amount weights.now shares.old shares.new result };

    ghost cent: { (r : Self) (f : ℤ) (ws : List ℕ) → Within f ws → OneCent f ws (meaning r f ws) };
}

// `Ready` stands in the promise of each rule and of this call, since what a caller reads is the promise of the call it makes.
/// A sharing rule that leaves no rest inside the bounds: its shares add up to the amount.
pub trait ExactRule: SharingRule {
    /// Shares as the rule does, and answers 0 wherever it shares.
    fn share_exactly(&self, amount: i64, weights: &[u32], shares: &mut [i64]) -> i64
        ensures rule { Shared (Self.SharingRule.meaning self.now) amount weights.now shares.old shares.new result }
        ensures whole { Ready amount weights.now (length shares.old) → result ≡ pos 0 }
    {
        self.share(amount, weights, shares)
    }

    ghost exact: { (r : Self) (f : ℤ) (ws : List ℕ) → Within f ws → rest_of f (Self.SharingRule.meaning r f ws) ≡ pos 0 };
}
