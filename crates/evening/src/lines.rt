// What the program writes.
use crate::reading::TaskFault;
use crate::sharing_out::Shares;
use crate::task::Task;
use sharing::{MAX_AMOUNT_CENTS, MAX_TOTAL_WEIGHT};
use std::alloc::{AllocError, Global};
use std::fmt;

// What `--help` prints.
#[derive(Clone, Copy, Debug)]
pub(super) struct Usage;

impl fmt::Display for Usage {
    fn fmt<W: fmt::Write>(&self, f: &mut fmt::Formatter<W>) -> fmt::Result {
        f.write_str("usage: evening FOLDER\n       evening AMOUNT WEIGHT...\n\n")?;
        f.write_str(
            "With one word, reads contracts.csv and nodes.csv from FOLDER, checks the contract\n",
        )?;
        f.write_str(
            "table, and prints a line for each row of each of its chains. The status is 0 if\n",
        )?;
        f.write_str("both files are read and the table passes.\n\n")?;
        f.write_str(
            "With two or more, shares AMOUNT over the weights by each of the three sharing rules,\n",
        )?;
        f.write_str(
            "and prints a line for each: the share of each weight, and the rest that is left.\n\n",
        )?;
        write!(
            f,
            "AMOUNT  whole cents, from -{MAX_AMOUNT_CENTS} to {MAX_AMOUNT_CENTS}\n"
        )?;
        write!(
            f,
            "WEIGHT  a whole number; together from 1 to {MAX_TOTAL_WEIGHT}\n\n"
        )?;
        f.write_str("example: evening 100 1 1 1")
    }
}

// Numbers in a row, with commas between them.
#[derive(Debug, Drop)]
struct Row<'a, T>(&'a [T]);

impl<'a, T: fmt::Display> fmt::Display for Row<'a, T> {
    fn fmt<W: fmt::Write>(&self, f: &mut fmt::Formatter<W>) -> fmt::Result {
        let Some((first, others)) = self.0.split_first() else {
            return Ok(());
        };
        write!(f, "{first}")?;
        for x in others {
            write!(f, ", {x}")?;
        }
        Ok(())
    }
}

impl fmt::Display for Task {
    fn fmt<W: fmt::Write>(&self, f: &mut fmt::Formatter<W>) -> fmt::Result {
        let weights = Row(self.weights.as_slice());
        write!(
            f,
            "sharing {} cents over weights {weights} ({} in all)",
            self.amount, self.total
        )
    }
}

impl fmt::Display for Shares {
    fn fmt<W: fmt::Write>(&self, f: &mut fmt::Formatter<W>) -> fmt::Result {
        let shares = Row(self.shares.as_slice());
        write!(f, "shares {shares}; rest {}", self.rest)
    }
}

// Written out, since beside the standard library the program uses `anyhow` alone.
impl fmt::Display for TaskFault {
    fn fmt<W: fmt::Write>(&self, f: &mut fmt::Formatter<W>) -> fmt::Result {
        match self {
            TaskFault::NoAmount => f.write_str(
                "a folder, or an amount and weights, are wanted; evening --help says more",
            ),
            TaskFault::AmountNoNumber => {
                write!(
                    f,
                    "the amount is no whole number from -{MAX_AMOUNT_CENTS} to {MAX_AMOUNT_CENTS}"
                )
            }
            TaskFault::WeightNoNumber(i) => {
                let most = u32::MAX;
                write!(
                    f,
                    "the weight at place {i} is no whole number from 0 to {most}"
                )
            }
            TaskFault::Bounds(bound) => write!(f, "{bound}"),
            TaskFault::Memory => f.write_str("not enough memory"),
        }
    }
}

// The word that a fault is about, if it is about one.
fn word_of<'a>(words: &'a [String], fault: &TaskFault) -> Option<&'a String> {
    match fault {
        TaskFault::AmountNoNumber => words.first(),
        TaskFault::WeightNoNumber(i) => words.get(i.saturating_add(1)),
        _ => None,
    }
}

// The message of a fault, the word that it is about last, however long that is.
pub(super) fn message(
    heap: Global,
    words: &[String],
    fault: &TaskFault,
) -> Result<String, AllocError> {
    match word_of(words, fault) {
        Some(word) => format!(in heap; "{fault}: '{word}'"),
        None => format!(in heap; "{fault}"),
    }
}

#[cfg(test)]
mod tests {
    use super::*;
    use crate::reading::read;
    use crate::report;
    use std::test::Fail;

    // The words of a line, and the message that they are refused with, or what is printed where they are a task. (The
    // program takes one word for a folder, and does not come here with it.)
    const LINES: [(&str, &str); 12] = [
        (
            "",
            "a folder, or an amount and weights, are wanted; evening --help says more",
        ),
        (
            "x 1",
            "the amount is no whole number from -1000000000 to 1000000000: 'x'",
        ),
        (
            "9223372036854775808 1",
            "the amount is no whole number from -1000000000 to 1000000000: '9223372036854775808'",
        ),
        (
            "100 1 1.5",
            "the weight at place 1 is no whole number from 0 to 4294967295: '1.5'",
        ),
        (
            "100 -1",
            "the weight at place 0 is no whole number from 0 to 4294967295: '-1'",
        ),
        (
            "100 4294967296",
            "the weight at place 0 is no whole number from 0 to 4294967295: '4294967296'",
        ),
        ("100", "there is no weight above 0 to share over"),
        ("100 0 0", "there is no weight above 0 to share over"),
        (
            "-1000000001 0",
            "the amount is beyond 1000000000 cents, the largest that is shared",
        ),
        (
            "1 4000000000 1",
            "the weights together are over 4000000000, the largest total",
        ),
        (
            "100 1 1 1",
            "sharing 100 cents over weights 1, 1, 1 (3 in all)\nrate: shares 33, 33, 33; rest 1\nlargest-remainder: shares 34, 33, 33; rest 0\nrunning: shares 33, 33, 34; rest 0",
        ),
        (
            "-7 +7 007",
            "sharing -7 cents over weights 7, 7 (14 in all)\nrate: shares -4, -4; rest 1\nlargest-remainder: shares -4, -3; rest 0\nrunning: shares -3, -4; rest 0",
        ),
    ];

    fn said(heap: Global, line: &str) -> Result<String, AllocError> {
        let mut words = Vec::new(heap);
        for word in line.split_whitespace() {
            words.push(String::from_str(heap, word)?)?;
        }
        match read(heap, words.as_slice()) {
            Ok(task) => report(heap, &task),
            Err(fault) => message(heap, words.as_slice(), &fault),
        }
    }

    #[test]
    fn messages(rt: HostRuntime) -> Result<(), Fail> {
        for (line, wanted) in LINES {
            assert_eq!(rt; said(rt.alloc(), line)?.as_str(), wanted);
        }
        Ok(())
    }
}
