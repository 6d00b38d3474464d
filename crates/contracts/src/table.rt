ghost use Rattle.std.specs.Prelude.{◌≡◌, ℕ, ◌<◌, ◌≤◌, [], length, IsTrue, ◌↔◌, MatchOption, MatchResult};
ghost use Rattle.contracts.specs.Chains.{Head, LeadsTo, Least, OfChain, Sound, carried, head_of, row_at};
ghost use Rattle.contracts.specs.Check.{Fails};
ghost use Rattle.contracts.specs.declared.faults.TableFault.TheVariants.{NoHead};

use crate::chain::ChainRows;
use crate::check::check_contracts;
use crate::faults::TableFault;
use crate::rows::ContractRow;

/// A contract table of at most 256 rows in which every chain ends, every next is a row that begins where the one before
/// it ends, and capacities are within bounds.
// Public clauses name its private field: a struct that is `Copy` and has a lifetime can have no `Model`.
#[derive(Clone, Copy, PartialEq, Eq, Debug)]
pub struct CheckedTable<'a> {
    rows: &'a [ContractRow],
    // Truncated, since a ghost field holds a proposition, and a proof that chains end holds the chains.
    ghost sound: { ∥ Sound rows.now ∥₁ },
}

impl<'a> CheckedTable<'a> {
    /// The table of these rows if they pass the check, else the empty table: a call that cannot fail. Whoever wants the
    /// fault takes `try_from`.
    pub fn new(rows: &'a [ContractRow]) -> CheckedTable<'a>
        ensures passed { Sound rows.now → result.rows.now ≡ rows.now }
        ensures failed { (Sound rows.now → ⊥) → result.rows.now ≡ [] }
    {
        CheckedTable::try_from(rows).unwrap_or(CheckedTable { rows: &[] })
    }

    /// How many rows the table has.
    pub fn len(&self) -> usize
        ensures { result ≡ length self.now.rows.now }
    {
        self.rows().len()
    }

    /// Whether the table has no rows.
    pub fn is_empty(&self) -> bool
        ensures { IsTrue result ↔ (self.now.rows.now ≡ []) }
    {
        self.rows().is_empty()
    }

    /// The rows of the table: a caller may rely on all that the check tests.
    #[tactic(auto, using(crate::proofs::Sounds::sound_of))]
    pub fn rows(&self) -> &'a [ContractRow]
        ensures same { result.now ≡ self.now.rows.now }
        ensures sound { Sound result.now }
    {
        self.rows
    }

    /// The row at a place, if there is one.
    pub fn row(&self, place: usize) -> Option<ContractRow>
        ensures { MatchOption result (length self.now.rows.now ≤ place) (λ x. (place < length self.now.rows.now) × (x ≡ row_at self.now.rows.now place)) }
    {
        self.rows.get(place).copied()
    }

    /// Refuses a row that is none of the table.
    pub fn check_head(&self, head: usize) -> Result<(), TableFault>
        ensures { MatchResult result (λ _. head < length self.now.rows.now) (λ fault. (fault ≡ NoHead) × (length self.now.rows.now ≤ head)) }
    {
        self.row(head).ok_or(TableFault::NoHead)?;
        Ok(())
    }

    /// The walk along the chain that begins at row `head`; where that is no row, a walk of no rows, a call that cannot fail.
    /// Whoever wants the fault asks `check_head`.
    pub fn chain(&self, head: usize) -> ChainRows<'a>
        ensures rows { result.rows.now ≡ self.now.rows.now }
        ensures place { result.place ≡ head_of self.now.rows.now head }
    {
        ChainRows {
            rows: self.rows,
            place: (head < self.rows.len()).then_some(head),
        }
    }

    /// Whether a chain begins at a row: it is a row, and none leads to it.
    pub fn is_head(&self, place: usize) -> bool
        ensures { IsTrue result ↔ Head self.now.rows.now place }
    {
        place < self.rows.len() && !leads_to(self.rows, place)
    }

    /// How much of a quantity the chain from row `head` carries: the least of it and the capacities along the chain. Where
    /// `head` is no row, there are none, and it is the quantity itself.
    pub fn carried(&self, head: usize, quantity: u32) -> u32
        ensures most { result ≤ quantity }
        ensures least { OfChain self.now.rows.now (head_of self.now.rows.now head) (λ is. result ≡ carried self.now.rows.now quantity is) }
        ensures law { OfChain self.now.rows.now (head_of self.now.rows.now head) (λ is. Least self.now.rows.now quantity is result) }
    {
        least_along(self.chain(head), quantity)
    }
}

/// The table of these rows, or the first test that fails with the lowest row.
impl<'a> TryFrom<&'a [ContractRow]> for CheckedTable<'a> {
    type Error = TableFault;

    ghost try_from_gives = { λ rows r. MatchResult r (λ table. (table.rows.now ≡ rows.now) × Sound rows.now) (Fails rows.now) };

    fn try_from(rows: &'a [ContractRow]) -> Result<CheckedTable<'a>, TableFault> {
        check_contracts(rows)?;
        Ok(CheckedTable { rows })
    }
}

// Whether some row leads to a place.
fn leads_to(rows: &[ContractRow], place: usize) -> bool
    ensures { IsTrue result ↔ ((j : ℕ) × (j < length rows.now) × LeadsTo rows.now place j) }
{
    rows.iter().any(|row| row.next == Some(place))
}

// The least of a quantity and the capacities of the rows that a walk has before it: apart from `carried`, so that another
// chain there fails this contract alone.
fn least_along(walk: ChainRows, quantity: u32) -> u32
    ensures most { result ≤ quantity }
    ensures least { OfChain walk.entry.rows.now walk.entry.place (λ is. result ≡ carried walk.entry.rows.now quantity is) }
    ensures law { OfChain walk.entry.rows.now walk.entry.place (λ is. Least walk.entry.rows.now quantity is result) }
{
    walk.fold(quantity, |least, (_, row)| least.min(row.capacity))
}
