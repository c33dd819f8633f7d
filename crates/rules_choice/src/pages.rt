ghost use Rattle.std.specs.Prelude.{◌≡◌, ◌<◌, ◌^◌, ◌&&◌, ℕ, IfOk, length, not};
ghost use Rattle.ttm_base.specs.Holes as words;
ghost use Rattle.rules_choice.specs.Marks.{marked, IsMarked};

use place_list::spans::add_page;
use std::alloc::Global;
use ttm_base::{NoMemory, Span, Spans};

/// Clears the marks of the pages of `span`.
pub fn take_span(marks: &mut Vec<bool>, span: Span)
    ensures len { length marks.new.items ≡ length marks.old.items }
    ensures taken { (page : ℕ) → marked marks.new.items page ≡ (marked marks.old.items page && not (words.has_page page span)) }
{
    let end = marks.len().min(span.end as usize);
    let start = end.min(span.start as usize);
    for page in start..end {
        marks[page] = false;
    }
}

/// Returns marks for `size` pages of a manager, set for those that no span of `held` has.
pub fn free_marks(alloc: Global, held: &[Span], size: u32) -> Result<Vec<bool>, NoMemory>
    ensures { IfOk result (λ marks. IsMarked (words.is_free_beside held.now) size marks.items) }
{
    let mut marks = vec![in alloc; true; size as usize]?;
    for span in held {
        take_span(&mut marks, *span);
    }
    Ok(marks)
}

/// Returns the holes among the marked pages, in rising order.
pub fn holes_among(alloc: Global, marks: &[bool]) -> Result<Spans, NoMemory>
    requires { length marks.now < 2 ^ 32 }
    ensures { IfOk result (λ found. found ≡ words.holes (marked marks.now) (length marks.now)) }
{
    let mut found = Spans::new(alloc);
    for page in 0..marks.len() {
        if marks[page] {
            add_page(&mut found, page as u32)?;
        }
    }
    Ok(found)
}
