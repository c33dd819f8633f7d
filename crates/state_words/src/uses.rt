ghost use Rattle.std.specs.Prelude.{◌≡◌};
ghost use Rattle.journal_model.specs.rules.Waits as words;

use crate::commands::writes;
use ttm_base::{BufId, Op, Usage};

/// Returns whether an operation of the job writes the buffer `b`.
pub fn is_written(ops: &[Op], b: BufId) -> bool
    ensures { result ≡ words.is_written ops.now b }
{
    ops.iter().any(|op| writes(b, op))
}

/// Returns the usage with which the job is added to the fences of the buffer `b`.
pub fn use_of(ops: &[Op], b: BufId) -> Usage
    ensures { result ≡ words.use_of ops.now b }
{
    if is_written(ops, b) {
        Usage::Write
    } else {
        Usage::Read
    }
}
