//! Runs of mapped pages: mappings side by side, whatever their buffers are.
ghost use Rattle.std.specs.Prelude.{◌≡◌, ◌+◌, ◌≤◌, All, IfOk, IsTrue};
ghost use Rattle.journal_model.specs.marks.Spaces.{Space, regions_space};
ghost use Rattle.gpu_spaces.specs.Kept.{regions_in};
ghost use Rattle.gpu_spaces.specs.Meaning.{IsMappedRange, IsMappedSpan};

use crate::mappings::{Mappings, mapping_at};
use std::alloc::Global;
use ttm_base::limits::PAGE_BYTES;
use ttm_base::{ItemList, NoMemory, Span};

/// The size of a page in bytes.
const PAGE: u64 = PAGE_BYTES as u64;

pub(crate) type Runs = ItemList<Span>;

/// Returns the pages of `next` with those of `run` before it, if it begins in `run` or at its end.
fn extended(run: Span, next: Span) -> Span
    ensures { (space : Space) → IsMappedSpan space run → IsMappedSpan space next → IsMappedSpan space result }
{
    if run.end < next.start {
        return next;
    }
    Span {
        start: run.start,
        end: next.end,
    }
}

/// Returns of each mapping its pages and those before it that are mapped side by side, in rising order.
fn runs_of(alloc: Global, mappings: &Mappings) -> Result<Runs, NoMemory>
    ensures { IfOk result (λ runs. All (IsMappedSpan (regions_space (regions_in mappings.now))) runs) }
{
    let mut runs = Runs::new(alloc);
    let mut run = Span { start: 0, end: 0 };
    for (start, rest) in mappings.iter() {
        run = extended(run, mapping_at(*start, *rest).span);
        runs.push(run)?;
    }
    Ok(runs)
}

/// Returns the runs of mapped pages if they are wanted and `runs` has none, and else `runs`, also where memory is refused.
pub(crate) fn runs_if(alloc: Global, mappings: &Mappings, runs: Runs, is_wanted: bool) -> Runs
    requires { All (IsMappedSpan (regions_space (regions_in mappings.now))) runs }
    ensures { All (IsMappedSpan (regions_space (regions_in mappings.now))) result }
{
    if !is_wanted || 0 < runs.len() {
        return runs;
    }
    match runs_of(alloc, mappings) {
        Ok(found) => found,
        Err(_) => runs,
    }
}

/// Returns whether a run has each page of a range of addresses.
fn has_range(run: Span, addr: u64, len: u32) -> bool
    requires { addr + len ≤ 4294967296 }
    ensures { (space : Space) → IsMappedSpan space run → IsTrue result → IsMappedRange space addr len }
{
    let page = (addr / PAGE) as u32;
    run.start <= page && addr + u64::from(len) <= PAGE * u64::from(run.end)
}

/// Returns whether one of the runs has each page of a range of addresses.
pub(crate) fn is_in_run(runs: &[Span], addr: u64, len: u32) -> bool
    requires { addr + len ≤ 4294967296 }
    ensures { (space : Space) → All (IsMappedSpan space) runs.now → IsTrue result → IsMappedRange space addr len }
{
    let end = ((addr + u64::from(len) + (PAGE - 1)) / PAGE) as u32;
    match runs.get(runs.partition_point(|run| run.end < end)) {
        Some(run) => has_range(*run, addr, len),
        None => false,
    }
}
