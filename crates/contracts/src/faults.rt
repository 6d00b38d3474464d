ghost use Rattle.contracts.specs.Refusals.{table_refusal};
ghost use Rattle.std.specs.Prelude.{◌≡◌};

use refusals::{Layer, Refusal};

/// Why a contract table is refused, or a call on one. The check names the lowest row that fails.
#[derive(Clone, Copy, PartialEq, Eq, Debug)]
pub enum TableFault {
    TooManyRows,
    Capacity(usize),
    NextNoRow(usize),
    NodesApart(usize),
    Endless(usize),
    /// The row that a chain is to begin at is none of the table.
    NoHead,
}

/// The number, layer and place under which a fault is reported.
impl From<TableFault> for Refusal {
    ghost from_gives = { λ fault refusal. refusal ≡ table_refusal fault };

    fn from(fault: TableFault) -> Refusal {
        let (number, place) = match fault {
            TableFault::TooManyRows => (1, 0),
            TableFault::Capacity(row) => (2, row),
            TableFault::NextNoRow(row) => (3, row),
            TableFault::NodesApart(row) => (4, row),
            TableFault::Endless(row) => (5, row),
            TableFault::NoHead => (13, 0),
        };
        Refusal {
            number,
            layer: Layer::Table,
            place,
        }
    }
}
