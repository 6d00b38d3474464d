//! Contract tables: rows that lead on to each other, and the check that every chain of them ends.
#![tactic(auto)]

mod chain;
mod check;
mod faults;
mod rows;
mod table;

pub use chain::ChainRows;
pub use check::{MAX_CAPACITY_MILLI_MW, MAX_ROWS, check_contracts};
pub use faults::TableFault;
pub use rows::ContractRow;
pub use table::CheckedTable;
