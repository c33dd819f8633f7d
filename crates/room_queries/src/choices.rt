ghost use Rattle.std.specs.Prelude.{◌≡◌, ◌<◌, ◌≤◌, Some, None, IfOk, length};
ghost use Rattle.resource_core.specs.Choices.{range_spans};
ghost use Rattle.resource_core.specs.Resources.{is_free};
ghost use Rattle.resource_core.specs.Vram.{spans_of_kind};
ghost use Rattle.journal_model.specs.rules.Choice as words;
ghost use Rattle.journal_model.specs.rules.Legal.{state_of};
ghost use Rattle.room_representation.specs.Held.{AreHeld};

use journal_model::{Entry, Script};
use resource_core::{Manager, RangeRoom, TakeFault, VramRoom};
use room_representation::Parts;
use state_words::{declared_align, declared_pages};
use std::alloc::Global;
use ttm_base::{BufId, Mem, NoMemory, Place, Spans};

/// Returns the spans that VRAM has for `pages` pages aligned to `align` at `place`, or None where it has no room.
fn choose_vram(
    room: &mut VramRoom,
    alloc: Global,
    pages: u32,
    align: u32,
    place: &Place,
) -> Result<Option<Spans>, NoMemory>
    requires some { 1 ≤ pages }
    requires aligned { 1 ≤ align }
    requires most { align ≤ 4096 }
    ensures found { IfOk result (λ found. found ≡ spans_of_kind room.old.kind (is_free room.old.resources.held) room.old.resources.size pages align place.now) }
    ensures same { room.new.resources ≡ room.old.resources }
    ensures rule { spans_of_kind room.new.kind ≡ spans_of_kind room.old.kind }
{
    match room.choose(alloc, pages, align, place) {
        Ok(spans) => Ok(Some(spans)),
        Err(TakeFault::NoRoom) => Ok(None),
        Err(TakeFault::NoMemory) => Err(NoMemory),
    }
}

/// Returns the spans that TT has for `pages` pages aligned to `align` at `place`, or None where it has no room.
fn choose_tt(
    room: &mut RangeRoom,
    alloc: Global,
    pages: u32,
    align: u32,
    place: &Place,
) -> Result<Option<Spans>, NoMemory>
    requires some { 1 ≤ pages }
    requires aligned { 1 ≤ align }
    requires most { align ≤ 4096 }
    ensures found { IfOk result (λ found. found ≡ range_spans (is_free room.old.held) room.old.size pages align place.now) }
    ensures same { room.new ≡ room.old }
{
    match room.choose(alloc, pages, align, place) {
        Ok(spans) => Ok(Some(spans)),
        Err(TakeFault::NoRoom) => Ok(None),
        Err(TakeFault::NoMemory) => Err(NoMemory),
    }
}

/// Returns the pages that `place` has for the declared buffer `b`, or None where it has none; in SYSTEM no pages are needed. Costs what the
/// manager's choice costs.
///
/// # Errors
///
/// Lack of memory.
pub fn choice(
    parts: &mut Parts,
    alloc: Global,
    script: &Script,
    before: &[Entry],
    b: BufId,
    place: &Place,
) -> Result<Option<Spans>, NoMemory>
    requires held { AreHeld script.now before.now parts.old }
    requires declared { b.0 < length script.now.buffers }
    ensures choice { IfOk result (λ found. found ≡ words.choice script.now (state_of script.now before.now).core b place.now) }
    ensures held { AreHeld script.now before.now parts.new }
{
    let pages = declared_pages(script, b);
    let align = declared_align(script, b);
    match place.mem {
        Mem::Vram => choose_vram(&mut parts.vram, alloc, pages, align, place),
        Mem::Tt => choose_tt(&mut parts.tt, alloc, pages, align, place),
        Mem::System => Ok(Some(Spans::new(alloc))),
    }
}
