ghost use Rattle.std.specs.Prelude.{◌≡◌, IfOk, option_copied};
ghost use Rattle.journal_model.specs.rules.State as words;

use journal_model::{BufIds, Buffer, Core, Course, Fences, Reservation, State, Table, Targets};
use state_words::{same_buffer, target_of};
use std::alloc::Global;
use ttm_base::{BufId, Loc, Mem, NoMemory, Span, Spans};

/// Returns the buffers of `bs`, in their order, without `b`.
pub fn without_buffer(alloc: Global, bs: &[BufId], b: BufId) -> Result<BufIds, NoMemory>
    ensures { IfOk result (λ rest. rest ≡ words.without_buffer bs.now b) }
{
    let mut rest = BufIds::new(alloc);
    for c in bs {
        if !same_buffer(b, *c) {
            rest.push(*c)?;
        }
    }
    Ok(rest)
}

/// Returns buffer `b` of `buffers` if it is live, else `None`.
pub fn live_in(buffers: &[Option<Buffer>], b: BufId) -> Option<&Buffer>
    ensures { option_copied result ≡ words.live_in buffers.now b }
{
    match buffers.get(b.0 as usize) {
        Some(Some(buffer)) => Some(buffer),
        _ => None,
    }
}

/// Returns whether buffer `b` is live in `state`.
pub fn is_live(state: &State, b: BufId) -> bool
    ensures { result ≡ words.is_live state.now b }
{
    live_in(state.core.buffers.items(), b).is_some()
}

/// Returns a buffer without pages, which stands for each buffer that isn't live. It takes no memory.
pub fn dead_buffer(alloc: Global) -> Buffer
    ensures { result ≡ words.new_buffer 0 }
{
    Buffer {
        mem: Mem::System,
        spans: Spans::new(alloc),
        table: Table::new(alloc),
        targets: Targets {
            system: None,
            tt: None,
            vram: None,
        },
        fences: Fences::new(alloc),
    }
}

/// Makes a buffer of `pages` pages, none of which has a place yet.
pub fn new_buffer(alloc: Global, pages: u32) -> Result<Buffer, NoMemory>
    ensures { IfOk result (λ x. x ≡ words.new_buffer pages) }
{
    let mut buffer = dead_buffer(alloc);
    for _page in 0..pages {
        buffer.table.push(Loc::Zero)?;
    }
    Ok(buffer)
}

/// Returns buffer `b` of `core` if it is live, else `dead`, the buffer without pages.
pub fn buffer_in<'a>(core: &'a Core, b: BufId, dead: &'a Buffer) -> &'a Buffer
    requires { dead.now ≡ words.new_buffer 0 }
    ensures { result.now ≡ words.buffer_in core.now b }
{
    match live_in(core.buffers.items(), b) {
        Some(buffer) => buffer,
        None => dead,
    }
}

/// Returns the spans of the target that `buffer` has in the memory type `mem`, none if it has no target there.
pub fn target_spans(mem: Mem, buffer: &Buffer) -> &[Span]
    ensures { result.now ≡ words.target_spans mem buffer.now }
{
    match target_of(mem, &buffer.targets) {
        Some(spans) => spans.items(),
        None => &[],
    }
}

/// Returns the reservation of a buffer that is neither pinned nor reserved.
pub fn no_reservation() -> Reservation
    ensures { result ≡ words.no_reservation }
{
    Reservation {
        pins: 0,
        holder: None,
    }
}

/// Returns the pins and the holder of buffer `b` in `reservations`.
pub fn reservation_in(reservations: &[Reservation], b: BufId) -> Reservation
    ensures { result ≡ words.reservation_in reservations.now b }
{
    match reservations.get(b.0 as usize) {
        Some(reservation) => *reservation,
        None => no_reservation(),
    }
}

/// Returns the course of the thread numbered `thread`, counted from 1, or `None` if there is no such thread.
pub fn course_of(state: &State, thread: u32) -> Option<&Course>
    ensures { option_copied result ≡ words.course_of state.now thread }
{
    if thread == 0 {
        None
    } else {
        state.courses.items().get(thread as usize - 1)
    }
}
