ghost use Rattle.std.specs.Prelude.{◌≡◌, ◌≢◌, IfOk, drop, length, slice_get, unwrap_or};
ghost use Rattle.ttm_base.specs.declared.Mem.TheVariants.{System as InSystem};
ghost use Rattle.journal_model.specs.rules.ApplyMoves as words;
ghost use Rattle.journal_model.specs.rules.State as model;
ghost use Rattle.room_representation.specs.steps.Lent.{as_buffer};
ghost use Rattle.room_moves.specs.Copies.{copies, named};

use bo_table::Bo;
use place_list::PageCursor;
use state_words::copy_of_page;
use std::alloc::Global;
use ttm_base::{Mem, NoMemory, Packet, PagePlace, Span};

/// Returns how packets name page `page` of the memory type `mem`, which is VRAM or TT.
fn name(mem: Mem, page: u32) -> PagePlace
    requires { mem ≢ InSystem }
    ensures { result ≡ named mem page }
{
    match mem {
        Mem::Vram => PagePlace::Vram(page),
        Mem::Tt => PagePlace::Aper(page),
        Mem::System => unreachable!(),
    }
}

/// Takes the next page of the walk `pages` and returns how packets name it.
fn next_name(mem: Mem, pages: &mut PageCursor) -> PagePlace
    requires { mem ≢ InSystem }
    ensures name { result ≡ named mem (unwrap_or (slice_get pages.old 0) 0) }
    ensures left { pages.new ≡ drop 1 pages.old }
{
    let page = pages.next().unwrap_or(0);
    name(mem, page)
}

/// Returns the packets that copy `pages` pages, one by one. Costs as many steps as there are pages and spans.
fn copy_pages(
    alloc: Global,
    pages: usize,
    to: Mem,
    targets: &[Span],
    from: Mem,
    sources: &[Span],
) -> Result<Vec<Packet>, NoMemory>
    requires to { to ≢ InSystem }
    requires from { from ≢ InSystem }
    ensures { IfOk result (λ packets. packets.items ≡ copies pages to targets.now from sources.now) }
{
    let mut packets = Vec::new(alloc);
    let mut ahead = PageCursor::new(targets);
    let mut here = PageCursor::new(sources);
    for _page in 0..pages {
        let target = next_name(to, &mut ahead);
        let source = next_name(from, &mut here);
        packets.push(copy_of_page(target, source))?;
    }
    Ok(packets)
}

/// Returns the spans of the target of the buffer `bo` in the memory type `mem`: none where it has no target there.
fn target_spans(bo: &Bo, mem: Mem) -> &[Span]
    ensures { result.now ≡ model.target_spans mem (as_buffer bo.now) }
{
    let target = match mem {
        Mem::System => &bo.targets.system,
        Mem::Tt => &bo.targets.tt,
        Mem::Vram => &bo.targets.vram,
    };
    match target {
        Some(spans) => spans.items(),
        None => &[],
    }
}

/// Returns the packets of a move to `mem`: each copies a page from where it stands to the target's. Moves go only between VRAM and TT.
pub(crate) fn move_packets(alloc: Global, bo: &Bo, mem: Mem) -> Result<Vec<Packet>, NoMemory>
    requires to { mem ≢ InSystem }
    requires from { bo.now.mem ≢ InSystem }
    ensures { IfOk result (λ packets. packets.items ≡ copies (length bo.now.table) mem (model.target_spans mem (as_buffer bo.now)) bo.now.mem bo.now.spans) }
{
    let pages = bo.table.places().len();
    copy_pages(
        alloc,
        pages,
        mem,
        target_spans(bo, mem),
        bo.mem,
        bo.spans.items(),
    )
}
