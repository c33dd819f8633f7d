ghost use Rattle.std.specs.Prelude.{◌≡◌, IfOk};
ghost use Rattle.journal_model.specs.rules.Places as words;

use journal_model::{Buffer, Frames};
use state_words::{frame_of, name_in_spans};
use std::alloc::Global;
use ttm_base::{Loc, Mem, NoMemory, PagePlace};

/// Returns the place that the page table of `buffer` has for page `i`, `Loc::Zero` if the buffer has no such page.
pub fn loc_of(buffer: &Buffer, i: u32) -> Loc
    ensures { result ≡ words.loc_of buffer.now i }
{
    match buffer.table.items().get(i as usize) {
        Some(loc) => *loc,
        None => Loc::Zero,
    }
}

/// Returns the frames of `buffer`, in the order of its pages.
pub fn frames_of(alloc: Global, buffer: &Buffer) -> Result<Frames, NoMemory>
    ensures { IfOk result (λ frames. frames ≡ words.frames_of buffer.now) }
{
    let mut frames = Frames::new(alloc);
    for loc in buffer.table.items() {
        if let Some(frame) = frame_of(*loc) {
            frames.push(frame)?;
        }
    }
    Ok(frames)
}

/// Returns the name that packets give page `i` of `buffer`: a page of VRAM, an aperture page of TT, or a frame.
pub fn packet_place(buffer: &Buffer, i: u32) -> PagePlace
    ensures { result ≡ words.packet_place buffer.now i }
{
    match buffer.mem {
        Mem::Vram | Mem::Tt => name_in_spans(buffer.mem, buffer.spans.items(), i),
        Mem::System => PagePlace::Frame(frame_of(loc_of(buffer, i)).unwrap_or(0)),
    }
}
