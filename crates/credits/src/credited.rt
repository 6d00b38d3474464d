ghost use Rattle.std.specs.Prelude.{◌≡◌, ◌<◌, ◌≤◌, [], ◌∷◌, ◌++◌, length};

use contracts::MAX_ROWS;
use std::marker::Model;

/// The credits of the rows of one chain, in cents and in the chain's order; a negative one is paid to the billing party.
/// No chain is longer than a table may be.
// In an array, since nothing is allocated here. The crate `arrayvec` has such a list, but its `ArrayVec` is not `Copy`, and
// these credits are.
#[derive(Clone, Copy, Debug, PartialEq, Eq)]
pub struct ChainCredits {
    cells: [i64; MAX_ROWS],
    count: usize,
}

impl Model for ChainCredits {
    ghost use Rattle.std.specs.Prelude.{List, length, take, ℤ};
    ghost use Rattle.credits.specs.Credited.{IsPadded, length-take, padded, padded-take};

    ghost Value = { List ℤ };

    ghost view = { λ c. take c.count c.cells };

    ghost invariant = { λ c. IsPadded c.cells c.count };

    ghost inverse = { λ cents. record { cells = padded cents; count = length cents } };

    ghost inverse_ok = { λ c h i. record {
      cells = padded-take c.cells c.count h i;
      count = length-take c.cells c.count h i;
    } };
}

impl ChainCredits {
    // Those of a chain of no rows.
    pub(crate) fn new() -> ChainCredits
        ensures { result ≡ [] }
    {
        ChainCredits {
            cells: [0; MAX_ROWS],
            count: 0,
        }
    }

    // One row more.
    pub(crate) fn push(&mut self, cents: i64)
        requires { length self.old < 256 }
        ensures { self.new ≡ self.old ++ cents ∷ [] }
    {
        self.cells[self.count] = cents;
        self.count += 1;
    }

    /// The credit of each row.
    pub fn as_slice(&self) -> &[i64]
        ensures credits { result.now ≡ self.now }
        ensures within { length result.now ≤ 256 }
    {
        &self.cells[..self.count]
    }
}
