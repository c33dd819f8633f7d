ghost use Rattle.std.specs.Prelude.{◌≡◌, IfOk, filter_map};
ghost use Rattle.journal_model.specs.rules.Places as words;

use journal_model::Frames;
use state_words::frame_of;
use std::alloc::Global;
use ttm_base::{Loc, NoMemory};

/// Returns the frames of the page table `places`, page by page.
pub fn frames_in(alloc: Global, places: &[Loc]) -> Result<Frames, NoMemory>
    ensures { IfOk result (λ frames. frames ≡ filter_map words.frame_of places.now) }
{
    let mut frames = Frames::new(alloc);
    for place in places {
        if let Some(frame) = frame_of(*place) {
            frames.push(frame)?;
        }
    }
    Ok(frames)
}
