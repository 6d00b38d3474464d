// A test of contract tables and chain credits on many cases. Each line of the input is one case: the contract rows, the
// node records and the question, parted by `|`. What the crates answer is printed. The expected output is written by an
// independent program, tools/credit_cases.py.
#![tactic(auto)]

mod reading;

use contracts::{CheckedTable, ContractRow, check_contracts};
use credits::{NodeRecord, balanced_quantity, chain_credits, node_price};
use reading::{Case, read};
use refusals::Refusal;
use std::io;

// What a call answered, as `show` prints it on a line of its own, or its refusal. Each line is one print: a print is a write.
fn print_answer<T, F, S>(
    rt: &impl Print,
    name: &str,
    answer: Result<T, F>,
    show: S,
) -> anyhow::Result<()>
where
    T: Drop,
    F: Into<Refusal> + Drop,
    S: FnOnce(T) -> io::Result<()> + Drop,
    requires { S.IsAlwaysCallable show }
{
    match answer {
        Ok(value) => show(value)?,
        Err(fault) => println!(rt; "{name}: {}", fault.into())?,
    }
    Ok(())
}

// The places of the rows along the chain.
fn print_chain(rt: &impl Print, table: &CheckedTable, head: usize) -> anyhow::Result<()> {
    print!(rt; "chain:")?;
    for (place, _) in table.chain(head) {
        print!(rt; " {place}")?;
    }
    println!(rt; "")?;
    Ok(())
}

// The weighted price of each node that has a record.
fn print_prices(rt: &impl Print, nodes: &[NodeRecord]) -> anyhow::Result<()> {
    print!(rt; "prices:")?;
    for node in 0..nodes.len() {
        match node_price(nodes, node) {
            Ok(price) => print!(rt; " {}", price.millicents)?,
            Err(fault) => print!(rt; " ({})", Refusal::from(fault))?,
        }
    }
    println!(rt; "")?;
    Ok(())
}

fn print_case(rt: &impl Print, case: &Case) -> anyhow::Result<()> {
    let rows = case.rows.as_slice();
    let nodes = case.nodes.as_slice();
    let table = CheckedTable::new(rows);
    print_answer(rt, "check", check_contracts(rows), |count| {
        println!(rt; "check: {count} rows")
    })?;
    print_chain(rt, &table, case.head)?;
    print_prices(rt, nodes)?;
    let balanced = balanced_quantity(&table, case.head, case.schedule);
    print_answer(rt, "balanced", balanced, |quantity| {
        println!(rt; "balanced: {}", quantity.milli_mwh)
    })?;
    let credits = chain_credits(&table, case.head, nodes, case.schedule);
    print_answer(rt, "credits", credits, |credits| {
        println!(rt; "credits: {:?}", credits.as_slice())
    })
}

fn run(rt: &(impl Input + Print + AllocGlobal)) -> anyhow::Result<()> {
    for (i, line) in rt.lines(rt.alloc()).enumerate() {
        println!(rt; "case {i}")?;
        print_case(rt, &read(rt.alloc(), line?.as_str())?)?;
    }
    Ok(())
}

fn main(rt: HostRuntime) -> anyhow::Result<()> {
    run(&rt)
}
