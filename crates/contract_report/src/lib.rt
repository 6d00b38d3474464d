//! What the evening run prints of a contract table.
#![tactic(auto)]

mod chains;
mod row_line;

ghost use Rattle.contract_report.specs.Report.{Report, refusal_line};
ghost use Rattle.contracts.specs.Refusals.{table_refusal};
ghost use Rattle.std.specs.Prelude.{◌≡◌, IfOk, string_bytes};

use chains::table_text;
use contracts::{CheckedTable, ContractRow, TableFault};
use refusals::Refusal;
use std::alloc::{AllocError, Global};

// The line of a refusal.
fn refused_text(heap: Global, fault: TableFault) -> Result<String, AllocError>
    ensures { IfOk result (λ text. string_bytes text ≡ refusal_line (table_refusal fault)) }
{
    let refusal = Refusal::from(fault);
    format!(in heap; "contracts: {refusal}\n")
}

/// The text of a contract table: how many rows it has and, for each row where a chain begins, a line for each row of that
/// chain. Of a table that the check refuses it is the refusal alone.
pub fn contract_report(heap: Global, rows: &[ContractRow]) -> Result<String, AllocError>
    ensures { IfOk result (λ text. Report rows.now (string_bytes text)) }
{
    match CheckedTable::try_from(rows) {
        Ok(table) => table_text(heap, &table),
        Err(fault) => refused_text(heap, fault),
    }
}
