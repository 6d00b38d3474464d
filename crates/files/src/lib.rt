//! Contract tables and node records, read from the bytes of text files. What a file holds is said by what is written for
//! a row: the bytes are the lines of the rows that are read, or the first line that is none is named.
#![tactic(auto)]

mod contract_lines;
mod fields;
mod node_lines;
mod numbers;
mod reading;

pub use reading::{FileFault, LineText, read_rows};
