//! The job by name: operations with addresses, cut at the borders of mappings into operations on buffers.
ghost use Rattle.std.specs.Prelude.{◌≡◌, ◌+◌, ◌-◌, ◌≤◌, ◌++◌, true, false, List, Some, None, All, IfOk, IsSome, IsTrue, length, min, option_map, if◌then◌else◌};
ghost use Rattle.std.specs.List.{list_all};
ghost use Rattle.journal_model.specs.marks.ByName as name;
ghost use Rattle.journal_model.specs.marks.ByName.{job_by_name, op_in_names};
ghost use Rattle.journal_model.specs.marks.Spaces.{Region, regions_space};
ghost use Rattle.gpu_spaces.specs.Inside.{is_inside};
ghost use Rattle.gpu_spaces.specs.Kept.{regions_in};
ghost use Rattle.gpu_spaces.specs.Meaning.{IsMappedSpan};
ghost use Rattle.gpu_spaces.specs.Regions.{IsKept};
ghost use Rattle.gpu_spaces.specs.Spots.{spot_of};

use crate::mappings::Mappings;
use crate::runs::{Runs, is_in_run, runs_if};
use crate::spot::{Spot, spot_at};
use journal_model::{Ops, VOp};
use std::alloc::Global;
use ttm_base::{NoMemory, Op, Span};

/// Returns the length of an operation in bytes.
fn vop_len(op: VOp) -> u32
    ensures { result ≡ name.vop_len op }
{
    match op {
        VOp::Fill { len, .. }
        | VOp::Copy { len, .. }
        | VOp::Xor { len, .. }
        | VOp::Probe { len, .. } => len,
    }
}

/// Returns the first address that is written, or that a probe reads.
fn first_address(op: VOp) -> u64
    ensures { result ≡ name.first_address op }
{
    match op {
        VOp::Fill { addr, .. }
        | VOp::Copy { addr, .. }
        | VOp::Xor { addr, .. }
        | VOp::Probe { addr, .. } => addr,
    }
}

/// Returns the address that is read to be copied or xored, or the first address where an operation has only one.
fn second_address(op: VOp) -> u64
    ensures { result ≡ name.second_address op }
{
    match op {
        VOp::Copy { from, .. } | VOp::Xor { from, .. } => from,
        VOp::Fill { addr, .. } | VOp::Probe { addr, .. } => addr,
    }
}

/// Returns the operation by name on `n` bytes, from one spot and, if it has two ranges, from the other.
fn op_by_name(op: VOp, first: Spot, second: Spot, n: u32) -> Op
    ensures { result ≡ name.op_by_name op (spot_of first) (spot_of second) n }
{
    match op {
        VOp::Fill { byte, .. } => Op::Fill {
            dst: first.b,
            off: first.off,
            len: n,
            byte,
        },
        VOp::Copy { .. } => Op::Copy {
            dst: first.b,
            doff: first.off,
            src: second.b,
            soff: second.off,
            len: n,
        },
        VOp::Xor { .. } => Op::Xor {
            dst: first.b,
            doff: first.off,
            src: second.b,
            soff: second.off,
            len: n,
        },
        VOp::Probe { .. } => Op::Probe {
            src: first.b,
            off: first.off,
            len: n,
        },
    }
}

/// Appends the operations by name of an operation to `job`. Returns false where a page isn't mapped.
fn push_ops(mappings: &Mappings, op: VOp, job: &mut Ops) -> Result<bool, NoMemory>
    requires kept { IsKept (regions_in mappings.now) }
    requires inside { is_inside op ≡ true }
    ensures { IfOk result (λ mapped. option_map (λ ops. job.old ++ ops) (op_in_names (regions_in mappings.now) op) ≡ (if mapped then Some job.new else None)) }
{
    let len = vop_len(op);
    let mut at = 0;
    while at < len {
        let Some(first) = spot_at(mappings, first_address(op) + u64::from(at)) else {
            return Ok(false);
        };
        let Some(second) = spot_at(mappings, second_address(op) + u64::from(at)) else {
            return Ok(false);
        };
        let n = u64::from(len - at).min(first.room.min(second.room)) as u32;
        job.push(op_by_name(op, first, second, n))?;
        at += n;
    }
    Ok(true)
}

/// Returns the job by name, or None where a page isn't mapped.
pub(crate) fn job_of(
    alloc: Global,
    mappings: &Mappings,
    ops: &[VOp],
) -> Result<Option<Ops>, NoMemory>
    requires kept { IsKept (regions_in mappings.now) }
    requires inside { list_all is_inside ops.now ≡ true }
    ensures { IfOk result (λ job. job ≡ job_by_name (regions_in mappings.now) ops.now) }
{
    let mut job = Ops::new(alloc);
    for op in ops {
        if !push_ops(mappings, *op, &mut job)? {
            return Ok(None);
        }
    }
    Ok(Some(job))
}

/// Returns whether each page of an operation is in a run of mapped pages that has the others of its range.
fn is_in_runs(runs: &[Span], op: VOp) -> bool
    requires { is_inside op ≡ true }
    ensures { (rs : List Region) → All (IsMappedSpan (regions_space rs)) runs.now → IsTrue result → IsSome (op_in_names rs op) }
{
    let len = vop_len(op);
    is_in_run(runs, first_address(op), len) && is_in_run(runs, second_address(op), len)
}

/// Adds the number of operations by name of an operation to `before`, up to `most`. Returns None where a page isn't mapped.
/// Once there are `most`, an operation in the runs isn't cut.
fn count_ops(mappings: &Mappings, runs: &[Span], op: VOp, before: u32, most: u32) -> Option<u32>
    requires kept { IsKept (regions_in mappings.now) }
    requires runs { All (IsMappedSpan (regions_space (regions_in mappings.now))) runs.now }
    requires inside { is_inside op ≡ true }
    requires few { before ≤ most }
    ensures { result ≡ option_map (λ ops. min (before + length ops) most) (op_in_names (regions_in mappings.now) op) }
{
    if before == most && is_in_runs(runs, op) {
        return Some(most);
    }
    let len = vop_len(op);
    let mut at = 0;
    let mut count = before;
    while at < len {
        let Some(first) = spot_at(mappings, first_address(op) + u64::from(at)) else {
            return None;
        };
        let Some(second) = spot_at(mappings, second_address(op) + u64::from(at)) else {
            return None;
        };
        let n = first.room.min(second.room).min(u64::from(len - at)) as u32;
        at += n;
        count = count.saturating_add(1).min(most);
    }
    Some(count)
}

/// Counts the operations of the job by name, up to `most`. Returns None where a page isn't mapped. Finds the runs of mapped
/// pages once there are `most`, so that no more operations have to be cut; where memory is refused they are cut.
pub(crate) fn job_len(alloc: Global, mappings: &Mappings, ops: &[VOp], most: u32) -> Option<u32>
    requires kept { IsKept (regions_in mappings.now) }
    requires inside { list_all is_inside ops.now ≡ true }
    ensures { result ≡ option_map (λ job. min (length job) most) (job_by_name (regions_in mappings.now) ops.now) }
{
    let mut runs = Runs::new(alloc);
    let mut count = 0;
    for op in ops {
        runs = runs_if(alloc, mappings, runs, count == most);
        let Some(more) = count_ops(mappings, runs.items(), *op, count, most) else {
            return None;
        };
        count = more;
    }
    Some(count)
}
