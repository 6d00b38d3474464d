// The legs of a contract row, and its credit.
ghost use Rattle.std.specs.Prelude.{◌≡◌, ◌≤◌, IfOk, unsigned_abs};
ghost use Rattle.credits.specs.Faults.{node_fault, row_fault, Answers};
ghost use Rattle.credits.specs.Legs.{node_leg, row_credit};

use crate::faults::PriceFault;
use crate::nodes::NodeRecord;
use crate::prices::node_price;
use crate::quantities::BalancedQuantity;
use contracts::ContractRow;

// The leg of a node, in cents; or the node's fault. The records and the quantity stay two parameters, as they are of the
// public `row_credit`: a struct of them would be a second way to ask the same.
fn node_leg(
    nodes: &[NodeRecord],
    node: usize,
    quantity: BalancedQuantity,
) -> Result<i64, PriceFault>
    ensures answer { Answers (node_fault nodes.now node) (node_leg nodes.now quantity.milli_mwh node) result }
    ensures small { IfOk result (λ cents. unsigned_abs cents ≤ 100000000) }
{
    Ok(quantity.leg(node_price(nodes, node)?))
}

/// The credit of a row at a balanced quantity, in cents: its receipt leg less its delivery leg. A negative one is paid to
/// the billing party, a positive one charged. If a node of it is at fault, that fault, the receipt judged first.
pub fn row_credit(
    nodes: &[NodeRecord],
    row: &ContractRow,
    quantity: BalancedQuantity,
) -> Result<i64, PriceFault>
    ensures answer { Answers (row_fault nodes.now row.now) (row_credit nodes.now quantity.milli_mwh row.now) result }
    ensures small { IfOk result (λ cents. unsigned_abs cents ≤ 200000000) }
{
    let receipt = node_leg(nodes, row.receipt, quantity)?;
    let delivery = node_leg(nodes, row.delivery, quantity)?;
    Ok(receipt - delivery)
}
