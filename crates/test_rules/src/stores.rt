use crate::making::{buffer_of, core_of, ensure, job_of, one, script_of, state_of};
use journal_model::{Bytes, Core, Entry, Ghosts, Jobs, Kind, Script, State};
use rules_stores::{PlainStores, can_store};
use std::alloc::Global;
use std::process::Abort;
use ttm_base::{Actor, BufId, JobId, Loc, NoMemory, Packet, PagePlace};

/// A script of sizes alone.
const SCRIPT: &str = "ttm 1\nvram range 1\ntt 1\nframes 2\nswap 1\nengines 1\nend\n";

const ENGINE: Actor = Actor::Engine(1);

const B: BufId = BufId(0);

const JOB: JobId = JobId { ctx: 1, num: 1 };

/// A fill of the last bytes of a frame, and a probe of another frame.
const PACKETS: &[Packet] = &[
    Packet::Fill {
        to: PagePlace::Frame(0),
        off: 4090,
        len: 6,
        byte: 7,
    },
    Packet::Probe {
        from: PagePlace::Frame(1),
        off: 4088,
        len: 4,
    },
];

/// Makes a core of a buffer of one page, and the job.
fn filled_core(rt: &impl Abort, alloc: Global) -> Core {
    let buffer = buffer_of(rt, alloc, &[Loc::Frame(0)], &[]);
    let buffers = one(rt, alloc, Some(buffer));
    let mut jobs = Jobs::new(alloc);
    jobs.push(job_of(rt, alloc, JOB, &[], PACKETS))
        .expect(rt, "a job");
    core_of(buffers, jobs, Ghosts::new(alloc))
}

/// Asserts that an entry of the engine can be made, and makes it.
fn make(rt: &impl Abort, script: &Script, state: &State, stores: &mut PlainStores, kind: Kind) {
    ensure(rt, can_store(script, state, ENGINE, &kind));
    let entry = Entry { who: ENGINE, kind };
    stores.after(script, state, &entry);
}

/// Returns a packet of the job, which has shown nothing yet.
fn packet(alloc: Global, k: u32) -> Kind {
    Kind::Packet {
        num: 1,
        k,
        piece: Bytes::new(alloc),
    }
}

/// Fills the page, swaps it out to the slot and back into the other frame.
fn swap_the_page(
    rt: &impl Abort,
    alloc: Global,
    script: &Script,
    state: &State,
    stores: &mut PlainStores,
) {
    make(rt, script, state, stores, packet(alloc, 0));
    let out = Kind::SwapOut {
        b: B,
        page: 0,
        slot: 0,
    };
    make(rt, script, state, stores, out);
    let back = Kind::SwapIn {
        b: B,
        page: 0,
        slot: 0,
        frame: 1,
    };
    make(rt, script, state, stores, back);
}

/// Asserts that the packet shows these bytes.
fn has_shown(rt: &impl Abort, shown: &Result<Kind, NoMemory>, want: &[u8]) {
    match shown {
        Ok(Kind::Packet { piece, .. }) => ensure(rt, piece.items() == want),
        _ => ensure(rt, false),
    }
}

#[test]
fn filled_page_goes_through_swap(rt: HostRuntime) {
    let rt = &rt;
    let alloc = rt.alloc();
    let script = script_of(rt, alloc, SCRIPT);
    let state = state_of(alloc, filled_core(rt, alloc));
    let mut stores = PlainStores::new(alloc, script.sizes).expect(rt, "stores");
    swap_the_page(rt, alloc, &script, &state, &mut stores);
    let shown = stores.showing(alloc, &script, &state, ENGINE, packet(alloc, 1));
    has_shown(rt, &shown, &[0, 0, 7, 7]);
}
