//! The rules that jobs with addresses may break.

ghost use Rattle.std.specs.Prelude.{◌≡◌, [], true, false, not, Some, None, IfOk, OnOk, if◌then◌else◌, nat_lt, map, fold, flat_map, sum_by};
ghost use Rattle.std.specs.List.{list_any, list_all};
ghost use Rattle.journal_model.specs.rules.Commands.{buffers_of_op, first_mentions};
ghost use Rattle.journal_model.specs.marks.ByName.{job_by_name};
ghost use Rattle.journal_model.specs.scripts.MarkRules as marks;
ghost use Rattle.journal_model.specs.scripts.MarkRules.{has_apart_ranges};
ghost use Rattle.gpu_spaces.specs.Inside.{is_inside};
ghost use Rattle.script_rules.specs.script_mappings.ThreadMappingLists.{IsThreadMappings};
ghost use Rattle.script_rules.specs.Jobs.{has_many, breaks_job_at};
ghost use Rattle.script_rules.specs.Mentions.{mentioned};
ghost use Rattle.journal_model.specs.scripts.LineRules.{lacks_number, has_range_fault, lacks_number_in_vop, passes_end, has_wrong_addresses, passes_in_vop, lacks_byte_in_vop, vop_in, is_big_named_job, len_of_vop_word, lacks_page};

use crate::rules::{is_above, is_nothing, mention};
use crate::script_mappings::ThreadMappings;
use journal_model::line::{Line, VOpWord};
use journal_model::{Script, VOp, VOps};
use std::alloc::Global;
use ttm_base::{BufId, ItemList, NoMemory, Op};

/// The number of bytes of an address space.
const SPACE_BYTES: u64 = 4_294_967_296;

/// One operation more than a job may have.
const TOO_MANY_OPS: u32 = 65;

fn lacks_op_number(op: &VOpWord) -> bool
    ensures { result ≡ lacks_number_in_vop op.now }
{
    match *op {
        VOpWord::Fill { addr, len, .. } | VOpWord::Probe { addr, len } => {
            addr.is_none() || len.is_none()
        }
        VOpWord::Copy { addr, from, len } | VOpWord::Xor { addr, from, len } => {
            addr.is_none() || from.is_none() || len.is_none()
        }
        VOpWord::Malformed => false,
    }
}

pub(crate) fn lack_address(ops: &[VOpWord]) -> bool
    ensures { result ≡ list_any lacks_number_in_vop ops.now }
{
    ops.iter().any(|o| lacks_op_number(o))
}

/// Returns whether `len` places from `first` on pass `end`.
pub(crate) fn does_pass_end(end: u64, first: Option<u32>, len: Option<u32>) -> bool
    ensures { result ≡ passes_end end first len }
{
    match (first, len) {
        (Some(first), Some(len)) => end < u64::from(first) + u64::from(len),
        _ => false,
    }
}

fn passes_space(addr: Option<u64>, len: Option<u32>) -> bool
    ensures { result ≡ passes_end 4294967296 addr len }
{
    match (addr, len) {
        (Some(addr), Some(len)) => {
            let len = u64::from(len);
            SPACE_BYTES < len || SPACE_BYTES - len < addr
        }
        _ => false,
    }
}

fn is_wrong_range(addr: Option<u64>, len: Option<u32>) -> bool
    ensures { result ≡ has_wrong_addresses addr len }
{
    is_nothing(len) || passes_space(addr, len)
}

fn op_passes(op: &VOpWord) -> bool
    ensures { result ≡ passes_in_vop op.now }
{
    match *op {
        VOpWord::Fill { addr, len, .. } => is_wrong_range(addr, len),
        VOpWord::Copy { addr, from, len } | VOpWord::Xor { addr, from, len } => {
            is_wrong_range(addr, len) || is_wrong_range(from, len)
        }
        VOpWord::Probe { addr, len } => is_wrong_range(addr, len) || is_above(256, len),
        VOpWord::Malformed => false,
    }
}

pub(crate) fn some_address_passes(ops: &[VOpWord]) -> bool
    ensures { result ≡ list_any passes_in_vop ops.now }
{
    ops.iter().any(|o| op_passes(o))
}

pub(crate) fn lack_byte_at_address(ops: &[VOpWord]) -> bool
    ensures { result ≡ list_any lacks_byte_in_vop ops.now }
{
    ops.iter()
        .any(|o| matches!(o, VOpWord::Fill { byte: None, .. }))
}

fn op_of(word: VOpWord) -> VOp
    ensures { result ≡ vop_in word }
{
    match word {
        VOpWord::Fill { addr, len, byte } => VOp::Fill {
            addr: addr.unwrap_or(0),
            len: len.unwrap_or(0),
            byte: byte.unwrap_or(0),
        },
        VOpWord::Copy { addr, from, len } => VOp::Copy {
            addr: addr.unwrap_or(0),
            from: from.unwrap_or(0),
            len: len.unwrap_or(0),
        },
        VOpWord::Xor { addr, from, len } => VOp::Xor {
            addr: addr.unwrap_or(0),
            from: from.unwrap_or(0),
            len: len.unwrap_or(0),
        },
        VOpWord::Probe { addr, len } => VOp::Probe {
            addr: addr.unwrap_or(0),
            len: len.unwrap_or(0),
        },
        VOpWord::Malformed => VOp::Probe { addr: 0, len: 0 },
    }
}

/// Returns the operations of `words`, which have all their parts.
pub fn vops_of(alloc: Global, words: &[VOpWord]) -> Result<VOps, NoMemory>
    ensures { IfOk result (λ ops. ops ≡ map vop_in words.now) }
{
    let mut ops = VOps::new(alloc);
    for word in words {
        ops.push(op_of(*word))?;
    }
    Ok(ops)
}

/// Returns whether a buffer stands in both ranges of an operation, as far as their pages are mapped.
fn some_buffer_is_twice(
    alloc: Global,
    thread_mappings: &ThreadMappings,
    ops: &[VOp],
) -> Result<bool, NoMemory>
    requires { list_all is_inside ops.now ≡ true }
    ensures { IfOk result (λ twice. twice ≡ list_any (λ v. not (has_apart_ranges thread_mappings.now.regions v)) ops.now) }
{
    for op in ops {
        if !thread_mappings.space().is_apart(alloc, *op)? {
            return Ok(true);
        }
    }
    Ok(false)
}

fn mention_op(seen: &mut ItemList<BufId>, op: &Op) -> Result<(), NoMemory>
    ensures { OnOk result (seen.new ≡ fold mentioned seen.old (buffers_of_op op.now)) }
{
    match *op {
        Op::Fill { dst, .. } => mention(seen, Some(dst)),
        Op::Probe { src, .. } => mention(seen, Some(src)),
        Op::Copy { dst, src, .. } | Op::Xor { dst, src, .. } => {
            mention(seen, Some(dst))?;
            mention(seen, Some(src))
        }
    }
}

/// Puts each buffer of `ops` into `seen` once.
fn mention_ops(seen: &mut ItemList<BufId>, ops: &[Op]) -> Result<(), NoMemory>
    requires { seen.old ≡ [] }
    ensures { OnOk result (seen.new ≡ first_mentions [] (flat_map buffers_of_op ops.now)) }
{
    for op in ops {
        mention_op(seen, op)?;
    }
    Ok(())
}

/// Returns whether the job by name, of few operations, has more than 16 buffers.
fn has_many_buffers(
    alloc: Global,
    thread_mappings: &ThreadMappings,
    ops: &[VOp],
) -> Result<bool, NoMemory>
    requires { list_all is_inside ops.now ≡ true }
    ensures { IfOk result (λ many. many ≡ has_many thread_mappings.now.regions ops.now) }
{
    match thread_mappings.space().job(alloc, ops)? {
        None => Ok(false),
        Some(job) => {
            let mut seen = ItemList::new(alloc);
            mention_ops(&mut seen, job.items())?;
            Ok(16 < seen.len())
        }
    }
}

/// Returns whether each page is mapped and the job by name has more than 64 operations or 16 buffers.
fn is_big(alloc: Global, thread_mappings: &ThreadMappings, ops: &[VOp]) -> Result<bool, NoMemory>
    requires { list_all is_inside ops.now ≡ true }
    ensures { IfOk result (λ big. big ≡ is_big_named_job (job_by_name thread_mappings.now.regions ops.now)) }
{
    match thread_mappings.space().job_len(ops, TOO_MANY_OPS) {
        None => Ok(false),
        Some(count) => {
            if 64 < count {
                return Ok(true);
            }
            has_many_buffers(alloc, thread_mappings, ops)
        }
    }
}

/// Returns whether a buffer stands in both ranges of a copy or xor, or there are too many buffers or operations by name. Asks
/// that first which takes fewer steps.
pub(crate) fn breaks_addressed_job(
    alloc: Global,
    thread_mappings: &ThreadMappings,
    words: &[VOpWord],
) -> Result<bool, NoMemory>
    requires numbers { list_any lacks_number_in_vop words.now ≡ false }
    requires ranges { list_any passes_in_vop words.now ≡ false }
    ensures { IfOk result (λ broken. broken ≡ breaks_job_at thread_mappings.now.regions words.now) }
{
    let ops = vops_of(alloc, words)?;
    if is_big(alloc, thread_mappings, ops.items())? {
        return Ok(true);
    }
    some_buffer_is_twice(alloc, thread_mappings, ops.items())
}

fn len_of(op: &VOpWord) -> u32
    ensures { result ≡ len_of_vop_word op.now }
{
    match *op {
        VOpWord::Fill { len, .. }
        | VOpWord::Copy { len, .. }
        | VOpWord::Xor { len, .. }
        | VOpWord::Probe { len, .. } => len.unwrap_or(0),
        VOpWord::Malformed => 0,
    }
}

/// Returns the sum of the lengths of `ops` in bytes as they are written, or `None` if it is more than `left`.
pub fn addressed_lens_within(left: u64, ops: &[VOpWord]) -> Option<u64>
    ensures { result ≡ (if nat_lt left (sum_by len_of_vop_word ops.now) then None else Some (sum_by len_of_vop_word ops.now)) }
{
    let mut sum = 0;
    for op in ops {
        let len = u64::from(len_of(op));
        if left - sum < len {
            return None;
        }
        sum += len;
    }
    Some(sum)
}

/// Returns whether a page of a range of addresses isn't mapped.
pub(crate) fn breaks_page(
    alloc: Global,
    script: &Script,
    thread_mappings: &ThreadMappings,
    line: &Line,
) -> Result<bool, NoMemory>
    requires numbers { lacks_number line.now ≡ false }
    requires ranges { has_range_fault script.now line.now ≡ false }
    ensures { IfOk result (λ broken. (d : marks.ThreadMappings) → IsThreadMappings thread_mappings.now d → broken ≡ lacks_page d line.now) }
{
    match line {
        Line::Vsubmit { ops, .. } => {
            let ops = vops_of(alloc, ops.items())?;
            Ok(
                thread_mappings
                    .space()
                    .job_len(ops.items(), TOO_MANY_OPS)
                    .is_none(),
            )
        }
        _ => Ok(false),
    }
}
