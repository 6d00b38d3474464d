// A test of the sharing rules on many cases. Each line of the input is one case: the number of cells of the share
// table, the amount, and the weights. Each rule shares into a table of cells that hold 777 before, and what it answered
// and left in the table is printed. The expected output is written by an independent program, tools/sharing_cases.py.
#![tactic(auto)]

use anyhow::Context;
use sharing::{ExactRule, LargestRemainderRule, RateRule, RunningRule, SharingRule};
use std::alloc::Global;

// One case of the test.
#[derive(Debug, Drop)]
struct Case {
    cells: usize,
    amount: i64,
    weights: Vec<u32>,
}

// What stands in every cell of a share table before a use.
const BEFORE: i64 = 777;

impl Case {
    fn read(heap: Global, line: &str) -> anyhow::Result<Case> {
        let mut words = line.split_whitespace();
        let cells = words
            .next()
            .context("no number of cells")?
            .parse::<usize>()?;
        let amount = words.next().context("no amount")?.parse::<i64>()?;
        let weights = words
            .map(|word| word.parse::<u32>().map_err(anyhow::Error::from))
            .try_collect(heap)?;
        Ok(Case {
            cells,
            amount,
            weights,
        })
    }

    // Shares the case into a table, and prints what `share` answered and left there.
    fn print_use<F: FnOnce(i64, &[u32], &mut [i64]) -> i64>(
        &self,
        rt: &(impl Alloc + Print),
        name: &str,
        share: F,
    ) -> anyhow::Result<()>
        requires { F.IsAlwaysCallable share }
    {
        let mut table = vec![in rt.alloc(); BEFORE; self.cells]?;
        let answer = share(self.amount, self.weights.as_slice(), table.as_mut_slice());
        println!(rt; "{name}: {table:?} rest {answer}")?;
        Ok(())
    }

    fn print_uses(&self, rt: &(impl Alloc + Print)) -> anyhow::Result<()> {
        let amount = self.amount;
        println!(rt; "{amount} into {} over {:?}", self.cells, self.weights)?;
        self.print_use(rt, "rate", |amount, weights, table| {
            RateRule.share(amount, weights, table)
        })?;
        self.print_use(rt, "largest-remainder", |amount, weights, table| {
            LargestRemainderRule.share(amount, weights, table)
        })?;
        self.print_use(rt, "largest-remainder exactly", |amount, weights, table| {
            LargestRemainderRule.share_exactly(amount, weights, table)
        })?;
        self.print_use(rt, "running", |amount, weights, table| {
            RunningRule.share(amount, weights, table)
        })?;
        self.print_use(rt, "running exactly", |amount, weights, table| {
            RunningRule.share_exactly(amount, weights, table)
        })
    }
}

fn run(rt: &(impl Alloc<A = Global> + Input + Print)) -> anyhow::Result<()> {
    for line in rt.lines(rt.alloc()) {
        Case::read(rt.alloc(), line?.as_str())?.print_uses(rt)?;
    }
    Ok(())
}

fn main(rt: HostRuntime) -> anyhow::Result<()> {
    run(&rt)
}
