// Contract tables: `party,capacity,receipt,delivery,next`, where `next` is empty for none.
ghost use Rattle.std.specs.Prelude.{◌≡◌};
ghost use Rattle.files.specs.Lines.{contract_line, WritableRow};
ghost use Rattle.files.specs.FieldByField.{contract_some, one_contract};

use crate::fields::{COMMA, NEWLINE, value_before};
use crate::reading::LineText;
use contracts::ContractRow;

// The row of these fields. It stands apart from their reading, so that a field in the place of another fails this contract
// alone. A place holds every `u32`, but there is no `From` for that, as there is none in Rust.
fn row_of(
    party: u32,
    capacity: u32,
    receipt: u32,
    delivery: u32,
    next: Option<usize>,
) -> ContractRow
    ensures { result ≡ record { party = party; capacity = capacity; receipt = receipt; delivery = delivery; next = next } }
{
    ContractRow {
        party: party as usize,
        capacity,
        receipt: receipt as usize,
        delivery: delivery as usize,
        next,
    }
}

impl LineText for ContractRow {
    ghost line = { contract_line };

    ghost writable = { WritableRow };

    ghost some = { λ row. contract_some row };

    ghost one = { λ bytes x y r s front front'. one_contract bytes x y r s front front' };

    fn read_line(bytes: &[u8]) -> Option<(ContractRow, &[u8])> {
        let (party, rest) = value_before(bytes, COMMA)?;
        let (capacity, rest) = value_before(rest, COMMA)?;
        let (receipt, rest) = value_before(rest, COMMA)?;
        let (delivery, rest) = value_before(rest, COMMA)?;
        let (next, rest) = value_before(rest, NEWLINE)?;
        Some((row_of(party, capacity, receipt, delivery, next), rest))
    }
}
