// Files of lines: what a kind of line owes, and the one reader of them all.
ghost use Rattle.std.specs.Prelude.{◌≡◌, ℕ, ◌<◌, List, length, Some, MatchOption, MatchResult};
ghost use Rattle.files.specs.declared.reading.FileFault.TheVariants.{Memory};
ghost use Rattle.files.specs.Fields.{Front, NoFront, OneFront};
ghost use Rattle.files.specs.Files.{OneAnswer, ReadsAs, Refuses, fault_words};

use std::alloc::{AllocError, AllocFailed, Global};
use std::error::Error;
use std::fmt;

/// Why a file is not read: a line that is no row, by its number counted from 1, or want of memory.
#[derive(Clone, Copy, Debug, PartialEq, Eq)]
pub enum FileFault {
    Unreadable(usize),
    Memory,
}

impl Error for FileFault {}

// Written out, since a `Display` that `thiserror` derives promises no text.
impl fmt::Display for FileFault {
    ghost output = { λ fault. Some (fault_words fault) };

    fn fmt<W: fmt::Write>(&self, f: &mut fmt::Formatter<W>) -> fmt::Result {
        match self {
            FileFault::Unreadable(line) => write!(f, "unreadable line {line}"),
            FileFault::Memory => f.write_str("not enough memory"),
        }
    }
}

// The `From` that is derived for an error enum has no contract, and clauses read what these give; so each of the two enums
// that name want of memory has its own. A `map_err` would name the variant again at each `?`.
impl From<AllocError> for FileFault {
    ghost from_gives = { λ _ r. r ≡ Memory };

    fn from(_error: AllocError) -> FileFault {
        FileFault::Memory
    }
}

impl<T: Drop> From<AllocFailed<T>> for FileFault {
    ghost from_gives = { λ _ r. r ≡ Memory };

    fn from(_error: AllocFailed<T>) -> FileFault {
        FileFault::Memory
    }
}

/// A kind of row that the lines of a file hold.
pub trait LineText: Sized {
    // The line that is written for a row, with the byte that ends it.
    ghost line: { Self → List ℕ };
    // The rows that a file may hold.
    ghost writable: { Self → Type 0 };

    /// The row whose line the bytes begin with, and what follows the line.
    fn read_line(bytes: &[u8]) -> Option<(Self, &[u8])>
        ensures { MatchOption result (NoFront line writable bytes.now) (λ p. Front line writable bytes.now p.0 p.1.now) };

    ghost some: { (row : Self) → 0 < length (line row) };

    // Bytes begin with the line of one row at most, so that a line has one reading.
    ghost one: { OneFront line writable };
}

// The rows whose lines the bytes are: apart from `read_rows`, so that a wrong line number fails this contract alone.
fn rows_of<R: LineText + Drop>(heap: Global, bytes: &[u8]) -> Result<Vec<R>, FileFault>
    ensures { MatchResult result (λ v. ReadsAs R.line R.writable bytes.now v.items) (Refuses R.line R.writable bytes.now) }
{
    let mut rows = Vec::new(heap);
    let mut left = bytes;
    while !left.is_empty() {
        let (row, rest) = R::read_line(left).ok_or(FileFault::Unreadable(rows.len() + 1))?;
        rows.push(row)?;
        left = rest;
    }
    Ok(rows)
}

/// The rows whose lines the bytes are. Fails at the first line that is none of a row, and for want of memory.
pub fn read_rows<R: LineText + Drop>(heap: Global, bytes: &[u8]) -> Result<Vec<R>, FileFault>
    ensures reads { MatchResult result (λ v. ReadsAs R.line R.writable bytes.now v.items) (Refuses R.line R.writable bytes.now) }
    ensures only { OneAnswer R.line R.writable }
{
    rows_of(heap, bytes)
}
