// The evening run: the program that a settlement analyst starts each evening, before the operator's statement is there.
// For now it reports the contract table and the node records of a folder, or shares an amount of cents over weights by
// each of the three sharing rules.
#![tactic(auto)]

mod folder;
mod lines;
mod reading;
mod sharing_out;
mod task;
mod words;

ghost use Rattle.std.specs.Prelude.{◌≡◌, map, length, string_bytes, codes, ◌↔◌, IsTrue};
ghost use Rattle.evening.specs.Words.{word_at};

use anyhow::bail;
use lines::Usage;
use sharing::{LargestRemainderRule, RateRule, RunningRule};
use sharing_out::shared;
use std::alloc::{AllocError, Global};
use std::env;
use std::process::ExitCode;
use std::rt::{Env, Files};
use task::Task;

// The task, and a line for each rule: one text, which is there before anything is printed.
fn report(heap: Global, task: &Task) -> Result<String, AllocError> {
    let rate = shared(heap, &RateRule, task)?;
    let largest = shared(heap, &LargestRemainderRule, task)?;
    let running = shared(heap, &RunningRule, task)?;
    format!(in heap; "{task}\nrate: {rate}\nlargest-remainder: {largest}\nrunning: {running}")
}

// Whether the words ask for the usage: `--help` alone.
fn asks_usage(words: &[String]) -> bool
    ensures { IsTrue result ↔ ((length words.now ≡ 1) × (word_at (map string_bytes words.now) 0 ≡ codes "--help")) }
{
    match words {
        [word] => word.as_str() == "--help",
        _ => false,
    }
}

// Shares as the words ask, and prints the shares.
fn share(rt: &(impl Print + AllocGlobal), words: &[String]) -> anyhow::Result<()> {
    match reading::read(rt.alloc(), words) {
        Ok(task) => rt.println(report(rt.alloc(), &task)?)?,
        Err(fault) => bail!("{}", lines::message(rt.alloc(), words, &fault)?),
    }
    Ok(())
}

fn run(rt: &(impl Env + Files + Print + AllocGlobal)) -> anyhow::Result<()> {
    let words: Vec<String> = env::args(rt)?.skip(1).collect(rt.alloc())?;
    match words.as_slice() {
        words if asks_usage(words) => rt.println(Usage)?,
        [folder] => folder::run(rt, folder.as_str())?,
        words => share(rt, words)?,
    }
    Ok(())
}

// An error that `main` returned would be written a second time, so it answers a status.
fn main(rt: HostRuntime) -> ExitCode {
    let Err(error) = run(&rt) else {
        return ExitCode::SUCCESS;
    };
    let _ = eprintln!(rt; "evening: {error}");
    ExitCode::FAILURE
}
