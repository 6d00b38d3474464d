// The files of a folder: read, and reported line by line.
use anyhow::{anyhow, bail};
use contract_report::contract_report;
use contracts::{ContractRow, check_contracts};
use credits::NodeRecord;
use files::{FileFault, LineText, read_rows};
use std::fs;
use std::rt::Files;

// The bytes of a file of the folder.
fn file_bytes(
    rt: &(impl Files + AllocGlobal),
    folder: &str,
    name: &str,
) -> anyhow::Result<Vec<u8>> {
    let path = format!(in rt.alloc(); "{folder}/{name}.csv")?;
    // The path is last, since a long message is cut.
    fs::read(rt, path.as_str()).map_err(|error| anyhow!(
        "{name}.csv cannot be read, {error}: {path}"
    ))
}

// The rows of a file of the folder. A line that is none of a row is reported, and ends the run.
fn rows_of<R: LineText + Drop>(
    rt: &(impl Files + Print + AllocGlobal),
    folder: &str,
    name: &str,
) -> anyhow::Result<Vec<R>> {
    let bytes = file_bytes(rt, folder, name)?;
    let rows = read_rows(rt.alloc(), bytes.as_slice());
    if let Err(fault @ FileFault::Unreadable(_)) = &rows {
        println!(rt; "{name}: {fault}")?;
        bail!("{name}.csv is not read past that line");
    }
    Ok(rows?)
}

// Reports the contract table and the node records of the folder.
pub(super) fn run(rt: &(impl Files + Print + AllocGlobal), folder: &str) -> anyhow::Result<()> {
    let rows: Vec<ContractRow> = rows_of(rt, folder, "contracts")?;
    rt.print(contract_report(rt.alloc(), rows.as_slice())?)?;
    let nodes: Vec<NodeRecord> = rows_of(rt, folder, "nodes")?;
    println!(rt; "nodes: {} nodes", nodes.len())?;
    if check_contracts(rows.as_slice()).is_err() {
        bail!("not all of it was accepted");
    }
    Ok(())
}
