//! All holes of a range manager (drm_mm_print).
ghost use Rattle.std.specs.Prelude.{◌≡◌, IfOk};
ghost use Rattle.ttm_base.specs.Holes.{holes, is_free_beside};

use crate::ranges::is_open;
use place_list::spans::add_page;
use range_manager::RangeManager;
use std::alloc::Global;
use ttm_base::{NoMemory, Spans};

/// Returns the holes of a manager. Costs a search for each page.
pub fn holes(alloc: Global, manager: &RangeManager) -> Result<Spans, NoMemory>
    ensures { IfOk result (λ found. found ≡ holes (is_free_beside manager.now.held) manager.now.size) }
{
    let (free, used) = manager.lengths();
    let size = free.checked_add(used).ok_or(NoMemory)?;
    let mut found = Spans::new(alloc);
    for page in 0..size {
        if is_open(manager, page) {
            add_page(&mut found, page)?;
        }
    }
    Ok(found)
}
