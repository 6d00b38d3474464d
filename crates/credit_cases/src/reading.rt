// The cases of the test, as they stand in the input. A case is one line: ROWS|NODES|QUESTION. A row is written
// `PARTY CAPACITY RECEIPT DELIVERY NEXT;` with `-` for no next row, a node's record as its two deviations and two prices,
// the fifteen-minute market's first, and `;`, and the question as `HEAD DEMAND SUPPLY DAY-AHEAD`.
use anyhow::Context;
use contracts::ContractRow;
use credits::{NodeRecord, Schedule};
use std::alloc::Global;
use std::num::ParseIntError;
use std::str::{FromStr, SplitWhitespace};

/// One case of the test: a contract table, the records of the nodes, and the chain that credits are asked for.
#[derive(Debug, Drop)]
pub(super) struct Case {
    pub(super) rows: Vec<ContractRow>,
    pub(super) nodes: Vec<NodeRecord>,
    pub(super) head: usize,
    pub(super) schedule: Schedule,
}

// The next word.
fn word<'a>(words: &mut SplitWhitespace<'a>) -> anyhow::Result<&'a str> {
    Ok(words.next().context("a number is missing")?)
}

// The next word, a number. (Inline, since a result with room for an error is else made and copied at each number.)
#[inline(always)]
fn number<T: FromStr<Err = ParseIntError>>(words: &mut SplitWhitespace<'_>) -> anyhow::Result<T> {
    Ok(word(words)?.parse()?)
}

// A place in the table; `-` is none.
fn place(text: &str) -> anyhow::Result<Option<usize>> {
    if text == "-" {
        return Ok(None);
    }
    Ok(Some(text.parse()?))
}

fn row(text: &str) -> anyhow::Result<ContractRow> {
    let mut words = text.split_whitespace();
    Ok(ContractRow {
        party: number(&mut words)?,
        capacity: number(&mut words)?,
        receipt: number(&mut words)?,
        delivery: number(&mut words)?,
        next: place(word(&mut words)?)?,
    })
}

fn node(text: &str) -> anyhow::Result<NodeRecord> {
    let mut words = text.split_whitespace();
    Ok(NodeRecord {
        fifteen_minute_deviation: number(&mut words)?,
        dispatch_deviation: number(&mut words)?,
        fifteen_minute_price: number(&mut words)?,
        dispatch_price: number(&mut words)?,
    })
}

// The items of a part of the line, each ended by `;`. (A loop, since a `try_collect` copies a result with room for an error
// at each item.)
fn list<T: Drop, F: Fn(&str) -> anyhow::Result<T>>(
    heap: Global,
    text: &str,
    item: F,
) -> anyhow::Result<Vec<T>>
    requires { F.IsAlwaysCallable item }
{
    let mut items = Vec::new(heap);
    for part in text.split_terminator(';') {
        items.push(item(part)?)?;
    }
    Ok(items)
}

// Reads a case from its line.
pub(super) fn read(heap: Global, line: &str) -> anyhow::Result<Case> {
    let mut parts = line.split('|');
    // Each part is read before the next is looked for, so that the first fault of a line is the one that is named.
    let rows = list(heap, parts.next().context("no rows")?, row)?;
    let nodes = list(heap, parts.next().context("no nodes")?, node)?;
    let mut words = parts.next().context("no question")?.split_whitespace();
    Ok(Case {
        rows,
        nodes,
        head: number(&mut words)?,
        schedule: Schedule {
            demand: number(&mut words)?,
            supply: number(&mut words)?,
            day_ahead: number(&mut words)?,
        },
    })
}
