//! The buffers to which ranges of addresses are mapped.
ghost use Rattle.std.specs.Prelude.{◌≡◌, ℕ, ◌+◌, ◌/◌, ◌<◌, ◌≤◌, ◌++◌, true, map, filter, IfOk, OnOk};
ghost use Rattle.std.specs.List.{list_any};
ghost use Rattle.journal_model.specs.marks.Spaces.{does_meet};
ghost use Rattle.journal_model.specs.marks.ByName as name;
ghost use Rattle.journal_model.specs.scripts.MarkRules as marks;
ghost use Rattle.journal_model.specs.scripts.MarkRules.{has_apart_ranges};
ghost use Rattle.law_legal.specs.law_spaces.Rising.{IsRising};
ghost use Rattle.gpu_spaces.specs.Inside.{is_inside};
ghost use Rattle.gpu_spaces.specs.Kept.{regions_in};
ghost use Rattle.gpu_spaces.specs.Sets.{IsSetOf};
ghost use Rattle.gpu_spaces.specs.buffer_set.Members.{is_member};

use crate::buffer_set::BufferSet;
use crate::mappings::{Mappings, around};
use journal_model::{BufIds, VOp};
use std::alloc::Global;
use ttm_base::limits::PAGE_BYTES;
use ttm_base::{BufId, NoMemory, Span};

/// The size of a page in bytes.
const PAGE: u64 = PAGE_BYTES as u64;

/// Returns the pages of a range of addresses.
fn pages_of(addr: u64, len: u32) -> Span
    requires { addr + len ≤ 4294967296 }
    ensures { result ≡ record { start = addr / 4096; end = (addr + len + 4095) / 4096 } }
{
    Span {
        start: (addr / PAGE) as u32,
        end: ((addr + u64::from(len) + (PAGE - 1)) / PAGE) as u32,
    }
}

/// Appends the buffers of the mappings that a range meets to `out`.
fn push_buffers(mappings: &Mappings, range: Span, out: &mut BufIds) -> Result<(), NoMemory>
    requires rising { IsRising (regions_in mappings.now) }
    requires some { range.start < range.end }
    ensures { OnOk result (out.new ≡ out.old ++ map (λ r. r.b) (filter (does_meet range) (regions_in mappings.now))) }
{
    let first = match around(mappings, range.start) {
        Some(mapping) => mapping.span.start,
        None => range.start,
    };
    for (_, rest) in mappings.range(first..range.end) {
        out.push(rest.b)?;
    }
    Ok(())
}

/// Returns the buffers of a range of addresses, as far as its pages are mapped.
fn buffers_between(
    alloc: Global,
    mappings: &Mappings,
    addr: u64,
    len: u32,
) -> Result<BufIds, NoMemory>
    requires rising { IsRising (regions_in mappings.now) }
    requires inside { addr + len ≤ 4294967296 }
    ensures { IfOk result (λ buffers. buffers ≡ name.buffers_between (regions_in mappings.now) addr len) }
{
    let mut buffers = BufIds::new(alloc);
    if len == 0 {
        return Ok(buffers);
    }
    push_buffers(mappings, pages_of(addr, len), &mut buffers)?;
    Ok(buffers)
}

/// Returns the set of the buffers of a list.
fn set_of(alloc: Global, buffers: &[BufId]) -> Result<BufferSet, NoMemory>
    ensures { IfOk result (λ set. IsSetOf set buffers.now) }
{
    let mut set = BufferSet::new(alloc);
    for b in buffers {
        set.add(*b)?;
    }
    Ok(set)
}

/// Returns whether one of the buffers is in the set.
fn has_one_of(set: &BufferSet, buffers: &[BufId]) -> bool
    ensures { result ≡ list_any (λ b. is_member set.now b.0) buffers.now }
{
    buffers.iter().any(|b| set.has(*b))
}

/// Returns whether no buffer is in both lists.
fn are_apart(alloc: Global, some: &[BufId], others: &[BufId]) -> Result<bool, NoMemory>
    ensures { IfOk result (λ apart. apart ≡ marks.are_apart some.now others.now) }
{
    let set = set_of(alloc, some)?;
    Ok(!has_one_of(&set, others))
}

/// Returns whether no buffer is in both ranges of a copy or xor, as far as their pages are mapped.
fn have_apart(
    alloc: Global,
    mappings: &Mappings,
    addr: u64,
    from: u64,
    len: u32,
) -> Result<bool, NoMemory>
    requires rising { IsRising (regions_in mappings.now) }
    requires inside { addr + len ≤ 4294967296 }
    requires other { from + len ≤ 4294967296 }
    ensures { IfOk result (λ apart. apart ≡ marks.are_apart (name.buffers_between (regions_in mappings.now) addr len) (name.buffers_between (regions_in mappings.now) from len)) }
{
    let some = buffers_between(alloc, mappings, addr, len)?;
    let others = buffers_between(alloc, mappings, from, len)?;
    are_apart(alloc, some.items(), others.items())
}

/// Returns whether no buffer is in both ranges of an operation, as far as their pages are mapped.
pub(crate) fn is_apart(alloc: Global, mappings: &Mappings, op: VOp) -> Result<bool, NoMemory>
    requires rising { IsRising (regions_in mappings.now) }
    requires inside { is_inside op ≡ true }
    ensures { IfOk result (λ apart. apart ≡ has_apart_ranges (regions_in mappings.now) op) }
{
    match op {
        VOp::Copy { addr, from, len } => have_apart(alloc, mappings, addr, from, len),
        VOp::Xor { addr, from, len } => have_apart(alloc, mappings, addr, from, len),
        VOp::Fill { .. } | VOp::Probe { .. } => Ok(true),
    }
}
