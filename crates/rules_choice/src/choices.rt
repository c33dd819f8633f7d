ghost use Rattle.std.specs.Prelude.{◌≡◌, ◌<◌, ◌≤◌, ◌^◌, IfOk, length};
ghost use Rattle.ttm_base.specs.Holes.{holes};
ghost use Rattle.journal_model.specs.rules.Commands.{decl};
ghost use Rattle.journal_model.specs.rules.Holds.{is_free_page, size_of};
ghost use Rattle.journal_model.specs.rules.Choice as words;
ghost use Rattle.rules_choice.specs.Marks.{IsMarked};

use crate::buddy::buddy_choice;
use crate::pages::{free_marks, holes_among};
use crate::ranges::range_choice;
use journal_model::{Core, Script};
use rules_holds::held_spans;
use rules_state::{declared_align, declared_pages, reach_of, size_of};
use std::alloc::Global;
use ttm_base::{BufId, Mem, Mode, NoMemory, Place, Spans};

/// Returns marks for the pages of the memory type `mem`, set for those that are free.
fn marks_of(alloc: Global, script: &Script, core: &Core, mem: Mem) -> Result<Vec<bool>, NoMemory>
    ensures marked { IfOk result (λ marks. IsMarked (is_free_page mem core.now) (size_of script.now mem) marks.items) }
    ensures small { IfOk result (λ marks. length marks.items < 2 ^ 32) }
{
    let held = held_spans(alloc, mem, core)?;
    free_marks(alloc, held.items(), size_of(script, mem))
}

/// Returns the holes of the memory type `mem`, in rising order.
#[tactic(auto, using(crate::proofs::BelowLaws::holes_below))]
fn holes_of(alloc: Global, script: &Script, core: &Core, mem: Mem) -> Result<Spans, NoMemory>
    ensures { IfOk result (λ found. found ≡ holes (is_free_page mem core.now) (size_of script.now mem)) }
{
    let marks = marks_of(alloc, script, core, mem)?;
    holes_among(alloc, &marks)
}

/// Returns a range with the buffer's alignment, from the top where `place` says so, or `None` if no hole fits.
fn range_at(
    alloc: Global,
    script: &Script,
    core: &Core,
    b: BufId,
    place: Place,
) -> Result<Option<Spans>, NoMemory>
    ensures { IfOk result (λ found. found ≡ words.range_at script.now core.now b place) }
{
    let found = holes_of(alloc, script, core, place.mem)?;
    let mode = if place.topdown {
        Mode::High
    } else {
        Mode::Best
    };
    let pages = declared_pages(script, b);
    let align = declared_align(script, b);
    match range_choice(mode, found.items(), pages, align, reach_of(script, place)) {
        None => Ok(None),
        Some(span) => Ok(Some(Spans::from_slice(alloc, &[span])?)),
    }
}

/// Returns blocks for buffer `b`, from the top or in one piece where `place` says so, or `None` if there aren't enough.
fn blocks_at(
    alloc: Global,
    script: &Script,
    core: &Core,
    b: BufId,
    place: Place,
) -> Result<Option<Spans>, NoMemory>
    ensures { IfOk result (λ found. found ≡ words.blocks_at script.now core.now b place) }
{
    let marks = marks_of(alloc, script, core, place.mem)?;
    buddy_choice(
        alloc,
        marks,
        reach_of(script, place),
        place.topdown,
        place.contig,
        declared_pages(script, b),
    )
}

/// Returns the pages that `place` has for buffer `b`, or `None` if it has no choice. None are needed in SYSTEM.
pub fn choice(
    alloc: Global,
    script: &Script,
    core: &Core,
    b: BufId,
    place: Place,
) -> Result<Option<Spans>, NoMemory>
    ensures { IfOk result (λ found. found ≡ words.choice script.now core.now b place) }
{
    match place.mem {
        Mem::System => Ok(Some(Spans::new(alloc))),
        Mem::Tt => range_at(alloc, script, core, b, place),
        Mem::Vram => {
            if script.sizes.buddy {
                blocks_at(alloc, script, core, b, place)
            } else {
                range_at(alloc, script, core, b, place)
            }
        }
    }
}
