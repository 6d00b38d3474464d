// What the words of the command line ask for.
ghost use Rattle.std.specs.Prelude.{◌≡◌, map, string_bytes, MatchResult};
ghost use Rattle.evening.specs.declared.reading.TaskFault.TheVariants.{Bounds, Memory};
ghost use Rattle.evening.specs.Words.{Weighed, Unweighed, Asked, Refuses};

use crate::task::Task;
use crate::words::{amount, weight};
use sharing::{OutOfBounds, check_bounds};
use std::alloc::{AllocFailed, Global};

// Why the words are no task. A weight that is no number is named by its place, and a bound by the fault of the layer
// that judges it.
#[derive(Clone, Copy, Debug, PartialEq, Eq)]
pub(super) enum TaskFault {
    NoAmount,
    AmountNoNumber,
    WeightNoNumber(usize),
    Bounds(OutOfBounds),
    Memory,
}

// The `From` that is derived for an error enum has no contract, and clauses read what these two give.
impl<T: Drop> From<AllocFailed<T>> for TaskFault {
    ghost from_gives = { λ _ r. r ≡ Memory };

    fn from(_error: AllocFailed<T>) -> TaskFault {
        TaskFault::Memory
    }
}

impl From<OutOfBounds> for TaskFault {
    ghost from_gives = { λ e r. r ≡ Bounds e };

    fn from(error: OutOfBounds) -> TaskFault {
        TaskFault::Bounds(error)
    }
}

// The weights that the words write. (A loop, since of a `try_collect` no clause says that it fails where an item does.)
fn weights(heap: Global, words: &[String]) -> Result<Vec<u32>, TaskFault>
    ensures { MatchResult result (λ v. Weighed (map string_bytes words.now) v.items) (Unweighed (map string_bytes words.now)) }
{
    let mut read = Vec::new(heap);
    for (i, word) in words.iter().enumerate() {
        let w = weight(word.as_str()).ok_or(TaskFault::WeightNoNumber(i))?;
        read.push(w)?;
    }
    Ok(read)
}

// The task that the words ask for.
pub(super) fn read(heap: Global, words: &[String]) -> Result<Task, TaskFault>
    ensures { MatchResult result (λ t. Asked (map string_bytes words.now) t.amount t.weights.items) (Refuses (map string_bytes words.now)) }
{
    let (first, others) = words.split_first().ok_or(TaskFault::NoAmount)?;
    let amount = amount(first.as_str()).ok_or(TaskFault::AmountNoNumber)?;
    let weights = weights(heap, others)?;
    let total = check_bounds(amount, weights.as_slice())?;
    Ok(Task {
        amount,
        weights,
        total,
    })
}
