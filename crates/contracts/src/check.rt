ghost use Rattle.std.specs.Prelude.{◌≡◌, ◌+◌, ◌<◌, ◌≤◌, true, length, IsTrue, ◌↔◌, MatchResult};
ghost use Rattle.std.specs.Fn.{FnReturnsAt};
ghost use Rattle.contracts.specs.Chains.{Each, Ends, NextInTable, NextInTableAt, CapacityWithinAt, Lowest, Meets, MeetsAt};
ghost use Rattle.contracts.specs.Check.{Judged, OneAnswer, WithinRows};
ghost use Rattle.contracts.specs.Figures.{Figures};
ghost use Rattle.contracts.specs.Testing.{FirstFailing, PassesAt, TakesRows};
ghost use Rattle.contracts.specs.Walks.{Walked};

use crate::faults::TableFault;
use crate::rows::ContractRow;

/// The most rows that a contract table may have.
pub const MAX_ROWS: usize = 256;

/// The largest capacity of a row.
pub const MAX_CAPACITY_MILLI_MW: u32 = 1_000_000;

// Whether all rows pass a test, or else the lowest row that does not. (The project has these tests as loops over the rows
// with index.)
fn check_each<F: Fn(&ContractRow) -> bool>(rows: &[ContractRow], passes: F) -> Result<(), usize>
    requires { TakesRows (F.pre passes) rows.now }
    ensures { MatchResult result (λ _. Each (PassesAt (FnReturnsAt F.Fn passes)) rows.now) (FirstFailing (FnReturnsAt F.Fn passes) rows.now) }
{
    for (i, row) in rows.iter().enumerate() {
        if !passes(row) {
            return Err(i);
        }
    }
    Ok(())
}

fn next_in_table(rows: &[ContractRow], row: &ContractRow) -> bool
    ensures { IsTrue result ↔ NextInTable rows.now row.now }
{
    row.next.is_none_or(|next| next < rows.len())
}

fn check_capacities(rows: &[ContractRow]) -> Result<(), usize>
    ensures { MatchResult result (λ _. Each CapacityWithinAt rows.now) (Lowest CapacityWithinAt rows.now) }
{
    check_each(rows, |row| row.capacity <= MAX_CAPACITY_MILLI_MW)
}

// Rows that are linked: no more than a table may have, and each next is one of them, so that no walk leaves them.
#[derive(Clone, Copy, Debug)]
struct LinkedRows<'a> {
    rows: &'a [ContractRow],
    ghost small: { length rows.now ≤ 256 },
    ghost leads: { Each NextInTableAt rows.now },
}

impl<'a> LinkedRows<'a> {
    fn new(rows: &'a [ContractRow]) -> Result<LinkedRows<'a>, usize>
        requires { length rows.now ≤ 256 }
        ensures { MatchResult result (λ linked. (linked.rows.now ≡ rows.now) × Each NextInTableAt rows.now) (Lowest NextInTableAt rows.now) }
    {
        check_each(rows, |row| next_in_table(rows, row))?;
        Ok(LinkedRows { rows })
    }

    fn meets(&self, row: &ContractRow) -> bool
        requires { NextInTable self.now.rows.now row.now }
        ensures { IsTrue result ↔ Meets self.now.rows.now row.now }
    {
        row.next
            .is_none_or(|next| row.delivery == self.rows[next].receipt)
    }

    fn check_nodes(&self) -> Result<(), usize>
        ensures { MatchResult result (λ _. Each MeetsAt self.now.rows.now) (Lowest MeetsAt self.now.rows.now) }
    {
        check_each(self.rows, |row| self.meets(row))
    }

    // Walks from row `first` and writes the walk's number, which is `first`, at each new row. A row that an earlier walk saw
    // is known to end; one that this walk saw closes a circle. So all walks together write at each row once. (`successors`
    // would have no end of its own on a circle.)
    fn chain_ends(&self, first: usize, walks: &mut [Option<u8>; MAX_ROWS]) -> bool
        requires row { first < length self.now.rows.now }
        requires walked { Walked self.now.rows.now first walks.old }
        ensures ends { IsTrue result ↔ Ends self.now.rows.now first }
        ensures walked { IsTrue result → Walked self.now.rows.now (first + 1) walks.new }
    {
        let mut place = Some(first);
        while let Some(row) = place {
            if let Some(walk) = walks[row] {
                return usize::from(walk) != first;
            }
            walks[row] = Some(first as u8);
            place = self.rows[row].next;
        }
        true
    }

    // A loop of its own, since this test keeps `walks` from row to row: of such a test, `check_each` would have to speak at
    // each state that its calls lead to.
    fn check_chains(&self) -> Result<(), usize>
        ensures { MatchResult result (λ _. Each Ends self.now.rows.now) (Lowest Ends self.now.rows.now) }
    {
        // Beside the rows, which are only lent, and of fixed size, since nothing is allocated here. A walk's number is a row's
        // place, which fits a byte: the array is cleared for each table, however short.
        let mut walks = [None; MAX_ROWS];
        for (i, _row) in self.rows.iter().enumerate() {
            if !self.chain_ends(i, &mut walks) {
                return Err(i);
            }
        }
        Ok(())
    }
}

/// Checks the whole table and answers how many rows it has, or the first test that fails with the lowest row. Each test goes
/// over all rows before the next begins.
#[tactic(auto, using(crate::proofs::Answer::one_answer, crate::proofs::Walks::within_rows, crate::proofs::Worked::figures))]
pub fn check_contracts(rows: &[ContractRow]) -> Result<usize, TableFault>
    ensures checked { Judged rows.now result }
    ensures only { OneAnswer rows.now }
    ensures within { Each NextInTableAt rows.now → WithinRows rows.now }
    ensures figures { Figures }
{
    if rows.len() > MAX_ROWS {
        return Err(TableFault::TooManyRows);
    }
    check_capacities(rows).map_err(TableFault::Capacity)?;
    let linked = LinkedRows::new(rows).map_err(TableFault::NextNoRow)?;
    linked.check_nodes().map_err(TableFault::NodesApart)?;
    linked.check_chains().map_err(TableFault::Endless)?;
    Ok(rows.len())
}
