//! Comparisons with what is wanted, each written out once, since a call costs the check a third of it.
ghost use Rattle.std.specs.Prelude.{◌≡◌, true};

use std::process::Abort;
use ttm_base::{BufId, JobId, Op, Packet};

/// Asserts that the condition holds.
pub fn ensure(rt: &impl Abort, holds: bool)
    ensures { holds ≡ true }
{
    if !holds {
        rt.panic("a condition doesn't hold")
    }
}

/// Asserts that there is this number, or none.
pub fn is_number(rt: &impl Abort, got: Option<u32>, want: Option<u32>)
    ensures { got ≡ want }
{
    ensure(rt, got == want);
}

/// Asserts that there is this job, or none.
pub fn is_job(rt: &impl Abort, got: Option<JobId>, want: Option<JobId>)
    ensures { got ≡ want }
{
    ensure(rt, got == want);
}

/// Asserts that there is this buffer, or none.
pub fn is_buffer(rt: &impl Abort, got: Option<BufId>, want: Option<BufId>) {
    ensure(rt, got == want);
}

/// Asserts that the bytes are these.
pub fn are_bytes(rt: &impl Abort, got: &[u8], want: &[u8]) {
    ensure(rt, got == want);
}

/// Asserts that the packets are these.
pub fn are_packets(rt: &impl Abort, got: &[Packet], want: &[Packet]) {
    ensure(rt, got == want);
}

/// Asserts that the operations are these.
pub fn are_ops(rt: &impl Abort, got: &[Op], want: &[Op]) {
    ensure(rt, got == want);
}
