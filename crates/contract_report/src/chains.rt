// The chains of a table, a line for each row.
ghost use Rattle.std.specs.Prelude.{◌≡◌, [], ◌∷◌, ◌++◌, IfOk, string_bytes, OnOk};
ghost use Rattle.contract_report.specs.Report.{ChainsText, PrintedAt, chain_lines, count_line, row_words};
ghost use Rattle.contracts.specs.Chains.{OfChain};

use crate::row_line::RowLine;
use contracts::{ChainRows, CheckedTable};
use std::alloc::{AllocError, Global};

// Adds a line to a text.
fn add_line(text: &mut String, line: RowLine) -> Result<(), AllocError>
    ensures { OnOk result (string_bytes text.new ≡ string_bytes text.old ++ (row_words line.head line.place line.row ++ (10 ∷ []))) }
{
    writeln!(text, "{line}")
}

// The lines of the rows that a walk has before it, on the chain that begins at row `head`.
fn chain_text(heap: Global, walk: ChainRows, head: usize) -> Result<String, AllocError>
    ensures { IfOk result (λ text. OfChain walk.entry.rows.now walk.entry.place (λ is. string_bytes text ≡ chain_lines walk.entry.rows.now head is)) }
{
    let mut text = String::new(heap);
    for (place, row) in walk {
        add_line(&mut text, RowLine { head, place, row })?;
    }
    Ok(text)
}

// What is printed at a row.
fn text_at(heap: Global, table: &CheckedTable, place: usize) -> Result<String, AllocError>
    ensures { IfOk result (λ text. PrintedAt table.now.rows.now place (string_bytes text)) }
{
    if table.is_head(place) {
        chain_text(heap, table.chain(place), place)
    } else {
        Ok(String::new(heap))
    }
}

// The line of a row count.
fn count_text(heap: Global, count: usize) -> Result<String, AllocError>
    ensures { IfOk result (λ text. string_bytes text ≡ count_line count) }
{
    format!(in heap; "contracts: {count} rows\n")
}

// The row count of a table, and what is printed at each of its rows, by place: each place is asked whether a chain begins.
pub(super) fn table_text(heap: Global, table: &CheckedTable) -> Result<String, AllocError>
    ensures { IfOk result (λ text. ChainsText table.now.rows.now (string_bytes text)) }
{
    let mut text = count_text(heap, table.len())?;
    for place in 0..table.len() {
        let part = text_at(heap, table, place)?;
        text.push_str(part.as_str())?;
    }
    Ok(text)
}
