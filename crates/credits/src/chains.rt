// The credits along a chain of contract rows.
ghost use Rattle.contracts.specs.Chains.{OfChain, carried, head_of};
ghost use Rattle.credits.specs.Chains.{Credited, InnerLegsCancel, TotalWithin, balanced, chain_fault, credit_fault, credits, head_fault, schedule_fault};
ghost use Rattle.credits.specs.Faults.{Answers, AnswersBy, first_fault};

use crate::credited::ChainCredits;
use crate::faults::{CreditFault, PriceFault};
use crate::legs::row_credit;
use crate::nodes::NodeRecord;
use crate::quantities::BalancedQuantity;
use crate::schedule::Schedule;
use contracts::{ChainRows, CheckedTable};

/// The balanced quantity of the chain from row `head`: the least of demand, supply and the capacities along the chain,
/// less the day-ahead portion. It is negative where the day-ahead market balanced more than that.
pub fn balanced_quantity(
    table: &CheckedTable,
    head: usize,
    schedule: Schedule,
) -> Result<BalancedQuantity, CreditFault>
    ensures { OfChain table.now.rows.now (head_of table.now.rows.now head) (λ is. AnswersBy (λ q. q.milli_mwh) (first_fault (head_fault table.now.rows.now head) (schedule_fault schedule)) (balanced table.now.rows.now is schedule) result) }
{
    table.check_head(head)?;
    schedule.check()?;
    let flow = table.carried(head, schedule.demand.min(schedule.supply));
    Ok(BalancedQuantity::less_day_ahead(flow, schedule.day_ahead))
}

// The credits of the rows that a walk has before it, or the first fault of a node.
fn credits_along(
    walk: ChainRows,
    nodes: &[NodeRecord],
    quantity: BalancedQuantity,
) -> Result<ChainCredits, PriceFault>
    ensures { OfChain walk.entry.rows.now walk.entry.place (λ is. Answers (chain_fault walk.entry.rows.now nodes.now is) (credits walk.entry.rows.now nodes.now quantity.milli_mwh is) result) }
{
    let mut credits = ChainCredits::new();
    for (_, row) in walk {
        credits.push(row_credit(nodes, &row, quantity)?);
    }
    Ok(credits)
}

// The credits of the chain from row `head`, judged in order: apart from `chain_credits`, whose clauses are proved by hand, so
// that a wrong step here fails this contract alone. The table, the head and the schedule stay three parameters:
// callers ask one table for many heads, so a struct of the three would be made for one call.
fn judged_credits(
    table: &CheckedTable,
    head: usize,
    nodes: &[NodeRecord],
    schedule: Schedule,
) -> Result<ChainCredits, CreditFault>
    ensures { OfChain table.now.rows.now (head_of table.now.rows.now head) (λ is. Answers (credit_fault table.now.rows.now head nodes.now schedule is) (credits table.now.rows.now nodes.now (balanced table.now.rows.now is schedule) is) result) }
{
    let quantity = balanced_quantity(table, head, schedule)?;
    Ok(credits_along(table.chain(head), nodes, quantity)?)
}

/// The credit of each row of the chain from row `head`, or the first fault: the head is judged first, then the schedule,
/// then the nodes row by row along the chain.
pub fn chain_credits(
    table: &CheckedTable,
    head: usize,
    nodes: &[NodeRecord],
    schedule: Schedule,
) -> Result<ChainCredits, CreditFault>
    ensures credited { Credited table.now.rows.now head nodes.now schedule result }
    ensures legs { InnerLegsCancel table.now.rows.now }
    ensures total { TotalWithin table.now.rows.now }
{
    judged_credits(table, head, nodes, schedule)
}
