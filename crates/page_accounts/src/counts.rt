ghost use Rattle.std.specs.Prelude.{◌≡◌, [], filter_map, length, min, unwrap_or, if◌then◌else◌};
ghost use Rattle.ttm_base.specs.Reach.{same_mem};
ghost use Rattle.journal_model.specs.statements.Account.{count_spans};
ghost use Rattle.journal_model.specs.rules.Places as places;
ghost use Rattle.journal_model.specs.rules.State as states;
ghost use Rattle.page_accounts.specs.Counting.{most};

use journal_model::Targets;
use state_words::{frame_of, length_of, same_mem, slot_of, target_of};
use ttm_base::{Loc, Mem, Span};

/// Counts the pages of `spans`. Saturates at `u64::MAX`.
pub(crate) fn count_pages(spans: &[Span]) -> u64
    ensures { result ≡ min (count_spans spans.now) most }
{
    let mut count = 0u64;
    for span in spans {
        count = count.saturating_add(u64::from(length_of(*span)));
    }
    count
}

/// Counts the pages of `spans`, which are in `mem`, if `mem` is `wanted`, else none. Saturates at `u64::MAX`.
pub(crate) fn count_pages_in(wanted: Mem, mem: Mem, spans: &[Span]) -> u64
    ensures { result ≡ min (count_spans (if same_mem mem wanted then spans.now else [])) most }
{
    if same_mem(mem, wanted) {
        count_pages(spans)
    } else {
        0
    }
}

/// Counts the pages of a target in `mem`. Saturates at `u64::MAX`.
pub(crate) fn count_target(mem: Mem, targets: &Targets) -> u64
    ensures { result ≡ min (count_spans (unwrap_or (states.target_of mem targets.now) [])) most }
{
    match target_of(mem, targets) {
        Some(spans) => count_pages(spans.items()),
        None => 0,
    }
}

/// Counts the frames of a page table.
pub(crate) fn count_frames(table: &[Loc]) -> u64
    ensures { result ≡ length (filter_map places.frame_of table.now) }
{
    table.iter().filter_map(|loc| frame_of(*loc)).count() as u64
}

/// Counts the slots of a page table.
pub(crate) fn count_slots(table: &[Loc]) -> u64
    ensures { result ≡ length (filter_map places.slot_of table.now) }
{
    table.iter().filter_map(|loc| slot_of(*loc)).count() as u64
}
