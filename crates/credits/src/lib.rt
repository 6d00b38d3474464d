//! Congestion credits of transmission contracts: the price of a node, the credit of a row, and the credits along a chain.
#![tactic(auto)]

mod chains;
mod credited;
mod faults;
mod legs;
mod nodes;
mod prices;
mod quantities;
mod schedule;

pub use chains::{balanced_quantity, chain_credits};
pub use credited::ChainCredits;
pub use faults::{CreditFault, PriceFault, Scheduled};
pub use legs::row_credit;
pub use nodes::NodeRecord;
pub use prices::{MAX_DEVIATION_MILLI_MWH, MAX_PRICE_MILLICENTS, Price, node_price};
pub use quantities::{BalancedQuantity, MAX_QUANTITY_MILLI_MWH};
pub use schedule::{MAX_SCHEDULED_MILLI_MWH, Schedule};
