//! Scripts, jobs and states for tests, with nothing in them but what is told.

ghost use Rattle.std.specs.Prelude.{◌≡◌, true};
ghost use Rattle.journal_model.specs.scripts.ScriptRules.{is_script};

use journal_model::{
    Buffer, Buffers, Core, Courses, Fences, Frames, Ghost, Ghosts, Job, JobIds, Jobs, Lists,
    Numbers, Reservations, Script, State, Targets,
};
use script_text::read_script;
use std::alloc::Global;
use std::process::Abort;
use ttm_base::{Fence, ItemList, JobId, Loc, Mem, Packet, Spans};

/// Asserts that the condition holds.
pub fn ensure(rt: &impl Abort, holds: bool)
    ensures { holds ≡ true }
{
    if !holds {
        rt.panic("a condition doesn't hold")
    }
}

/// Makes a list of one item.
pub fn one<T: Drop>(rt: &impl Abort, alloc: Global, item: T) -> ItemList<T> {
    let mut items = ItemList::new(alloc);
    items.push(item).expect(rt, "an item");
    items
}

/// Makes a list of copies of these items.
pub fn list<T: Copy>(rt: &impl Abort, alloc: Global, items: &[T]) -> ItemList<T> {
    ItemList::from_slice(alloc, items).expect(rt, "items")
}

/// Reads the script of a text.
pub fn script_of(rt: &impl Abort, alloc: Global, text: &str) -> Script
    ensures { is_script result ≡ true }
{
    read_script(alloc, text.as_bytes()).expect(rt, "a script")
}

/// Makes a list of the ids of these jobs.
pub fn ids_of(rt: &impl Abort, alloc: Global, jobs: &[JobId]) -> JobIds {
    let mut ids = JobIds::new(alloc);
    for id in jobs {
        ids.push(*id).expect(rt, "an id");
    }
    ids
}

/// Makes a job of these packets that waits for the jobs `waits` and isn't done.
pub fn job_of(
    rt: &impl Abort,
    alloc: Global,
    id: JobId,
    waits: &[JobId],
    packets: &[Packet],
) -> Job {
    Job {
        id,
        waits: ids_of(rt, alloc, waits),
        packets: list(rt, alloc, packets),
        ran: 0,
        finished: false,
    }
}

/// Makes a list of these fences.
fn fences_of(rt: &impl Abort, alloc: Global, fences: &[Fence]) -> Fences {
    let mut all = Fences::new(alloc);
    for fence in fences {
        all.push(*fence).expect(rt, "a fence");
    }
    all
}

/// Makes a buffer in SYSTEM with these places and fences.
pub fn buffer_of(rt: &impl Abort, alloc: Global, places: &[Loc], fences: &[Fence]) -> Buffer {
    Buffer {
        mem: Mem::System,
        spans: Spans::new(alloc),
        table: list(rt, alloc, places),
        targets: Targets {
            system: None,
            tt: None,
            vram: None,
        },
        fences: fences_of(rt, alloc, fences),
    }
}

/// Makes a ghost that holds pages of VRAM.
pub fn ghost_in_vram(alloc: Global, num: u64, vram: Spans) -> Ghost {
    Ghost {
        num,
        vram,
        tt: Spans::new(alloc),
        frames: Frames::new(alloc),
        jobs: JobIds::new(alloc),
    }
}

/// Makes a core of these buffers, jobs and ghosts, and no move fence.
pub fn core_of(buffers: Buffers, jobs: Jobs, ghosts: Ghosts) -> Core {
    Core {
        buffers,
        jobs,
        ghosts,
        move_fence: None,
    }
}

/// Makes a state with this core, and no thread.
pub fn state_of(alloc: Global, core: Core) -> State {
    State {
        core,
        reservations: Reservations::new(alloc),
        lists: Lists::new(alloc),
        last_stamp: 0,
        last_ghost: 0,
        last_jobs: Numbers::new(alloc),
        courses: Courses::new(alloc),
    }
}
