// A task shared by a rule.
ghost use Rattle.std.specs.Prelude.{◌≡◌, IfOk};
ghost use Rattle.sharing.specs.Sharing.{rest_of};

use crate::task::Task;
use sharing::SharingRule;
use std::alloc::{AllocError, Global};

// The share of each weight, and the rest of the amount.
#[derive(Debug, Drop)]
pub(super) struct Shares {
    pub(super) shares: Vec<i64>,
    pub(super) rest: i64,
}

// The shares of the task by the rule.
pub(super) fn shared<R: SharingRule>(
    heap: Global,
    rule: &R,
    task: &Task,
) -> Result<Shares, AllocError>
    ensures shares { IfOk result (λ s. s.shares.items ≡ R.SharingRule.meaning rule.now task.now.amount task.now.weights.items) }
    ensures rest { IfOk result (λ s. s.rest ≡ rest_of task.now.amount (R.SharingRule.meaning rule.now task.now.amount task.now.weights.items)) }
{
    let mut shares = vec![in heap; 0; task.weights.len()]?;
    let rest = rule.share(task.amount, task.weights.as_slice(), shares.as_mut_slice());
    Ok(Shares { shares, rest })
}
