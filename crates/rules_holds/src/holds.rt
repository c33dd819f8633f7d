ghost use Rattle.std.specs.Prelude.{◌≡◌, ◌++◌, IfOk, OnOk, flat_map};
ghost use Rattle.std.specs.List.{list_any};
ghost use Rattle.ttm_base.specs.Holes as pages;
ghost use Rattle.journal_model.specs.rules.Holds as words;
ghost use Rattle.rules_holds.specs.Held.{spans_of_slot};

use journal_model::{Buffer, Core, Ghost};
use place_list::spans::same_mem;
use rules_state::target_spans;
use std::alloc::Global;
use ttm_base::{Mem, NoMemory, Span, Spans};

/// Returns the spans that `buffer` has in the memory type `mem`, none if it is in another.
pub fn spans_in(mem: Mem, buffer: &Buffer) -> &[Span]
    ensures { result.now ≡ words.spans_in mem buffer.now }
{
    if same_mem(buffer.mem, mem) {
        buffer.spans.items()
    } else {
        &[]
    }
}

/// Returns the spans that the ghost `left` has in the memory type `mem`.
pub fn ghost_spans(mem: Mem, left: &Ghost) -> &[Span]
    ensures { result.now ≡ words.ghost_spans mem left.now }
{
    match mem {
        Mem::System => &[],
        Mem::Tt => left.tt.items(),
        Mem::Vram => left.vram.items(),
    }
}

/// Appends the spans that live buffers hold in the memory type `mem` to `spans`, for each of `buffers` those of its target after its own.
fn push_live(spans: &mut Spans, mem: Mem, buffers: &[Option<Buffer>]) -> Result<(), NoMemory>
    ensures { OnOk result (spans.new ≡ spans.old ++ flat_map (spans_of_slot mem) buffers.now) }
{
    for slot in buffers {
        if let Some(buffer) = slot {
            spans.extend(spans_in(mem, buffer))?;
            spans.extend(target_spans(mem, buffer))?;
        }
    }
    Ok(())
}

/// Appends the spans that `ghosts` hold in the memory type `mem` to `spans`.
fn push_ghosts(spans: &mut Spans, mem: Mem, ghosts: &[Ghost]) -> Result<(), NoMemory>
    ensures { OnOk result (spans.new ≡ spans.old ++ flat_map (words.ghost_spans mem) ghosts.now) }
{
    for g in ghosts {
        spans.extend(ghost_spans(mem, g))?;
    }
    Ok(())
}

/// Returns all spans of the memory type `mem` that buffers, targets and ghosts hold.
#[tactic(auto, using(crate::proofs::HeldLaws::held_spans_of))]
pub fn held_spans(alloc: Global, mem: Mem, core: &Core) -> Result<Spans, NoMemory>
    ensures { IfOk result (λ spans. spans ≡ words.held_spans mem core.now) }
{
    let mut spans = Spans::new(alloc);
    push_live(&mut spans, mem, core.buffers.items())?;
    push_ghosts(&mut spans, mem, core.ghosts.items())?;
    Ok(spans)
}

/// Returns whether `span` has the page `page`.
pub fn has_page(page: u32, span: Span) -> bool
    ensures { result ≡ pages.has_page page span }
{
    span.start <= page && page < span.end
}

/// Returns whether some span of `held` has the page `page`.
fn is_held(held: &[Span], page: u32) -> bool
    ensures { result ≡ list_any (pages.has_page page) held.now }
{
    held.iter().any(|s| has_page(page, *s))
}

/// Returns whether no span of `held` has the page `page`.
pub fn is_free_beside(held: &[Span], page: u32) -> bool
    ensures { result ≡ pages.is_free_beside held.now page }
{
    !is_held(held, page)
}
