ghost use Rattle.std.specs.Prelude.{◌≡◌, ◌≤◌, length, IsTrue};
ghost use Rattle.copy_packet.specs.Runs.{CanRun};

use crate::copies::stores::stores;
use crate::wanted::{ensure, is_job, is_number};
use copy_engine::Rings;
use copy_packet::{ProbeBytes, Stores};
use fence_core::{FenceSet, Timeline};
use std::alloc::Global;
use std::process::Abort;
use ttm_base::{JobId, Packet, PagePlace, Usage};

/// Pushes a job, where it may be pushed.
fn push(rt: &impl Abort, rings: &mut Rings, job: JobId, waits: FenceSet, packets: Vec<Packet>) {
    ensure(rt, job.ctx < rings.contexts());
    ensure(rt, 0 < job.num);
    ensure(rt, waits.contexts() == rings.contexts());
    ensure(rt, packets.len() < 9);
    rings.push(job, waits, packets).expect(rt, "a place");
}

/// Returns whether it is a packet on the first 200 bytes of frame 0.
fn is_near(packet: &Packet, stores: &Stores) -> bool
    requires { length stores.now.frames ≡ 4096 }
    ensures { IsTrue result → CanRun stores.now packet.now }
{
    match *packet {
        Packet::Fill {
            to: PagePlace::Frame(0),
            off,
            len,
            ..
        } => off <= 100 && len <= 100,
        Packet::Probe {
            from: PagePlace::Frame(0),
            off,
            len,
        } => off <= 100 && len <= 100,
        _ => false,
    }
}

/// Runs the head's next packet, and returns its number; or drops the head where none is left.
fn step(rings: &mut Rings, stores: &mut Stores, out: &mut ProbeBytes) -> Option<u32>
    requires { length stores.old.frames ≡ 4096 }
    ensures { length stores.new.frames ≡ 4096 }
{
    if rings.contexts() == 0 || rings.head(0).is_none() {
        return None;
    }
    let near = match rings.next_packet(0) {
        Some(packet) => is_near(packet, stores),
        None => {
            rings.finish(0);
            return None;
        }
    };
    if near {
        return Some(rings.run_next(0, stores, out));
    }
    None
}

fn head(rings: &Rings) -> Option<JobId> {
    if 0 < rings.contexts() {
        return rings.head(0);
    }
    None
}

const ONE: JobId = JobId { ctx: 0, num: 1 };

const TWO: JobId = JobId { ctx: 0, num: 2 };

const FILL: Packet = Packet::Fill {
    to: PagePlace::Frame(0),
    off: 0,
    len: 2,
    byte: 7,
};

const PROBE: Packet = Packet::Probe {
    from: PagePlace::Frame(0),
    off: 1,
    len: 2,
};

/// Pushes a job that waits for none.
fn push_free(rt: &impl Abort, alloc: Global, rings: &mut Rings, job: JobId, packets: &[Packet]) {
    let waits = FenceSet::new(alloc, 1).expect(rt, "a context");
    let packets = Vec::from_slice(alloc, packets).expect(rt, "packets");
    push(rt, rings, job, waits, packets);
}

/// The head before each step, the number of the packet that is run, if one is, and the number of bytes that were shown last.
const STEPS: &[(JobId, Option<u32>, usize)] = &[
    (ONE, Some(0), 0),
    (ONE, Some(1), 2),
    (ONE, None, 2),
    (TWO, Some(0), 2),
    (TWO, Some(1), 0),
    (TWO, None, 0),
];

/// Takes the steps, and compares each.
fn assert_steps(rt: &impl Abort, rings: &mut Rings, stores: &mut Stores, out: &mut ProbeBytes)
    requires { length stores.old.frames ≡ 4096 }
{
    for (job, number, shown) in STEPS {
        is_job(rt, head(rings), Some(*job));
        is_number(rt, step(rings, stores, out), *number);
        ensure(rt, out.bytes().len() == *shown);
    }
}

#[test]
fn jobs_and_packets_in_order(rt: HostRuntime) {
    let rt = &rt;
    let mut stores = stores(rt, rt.alloc(), 0, 1, 0);
    let mut out = ProbeBytes::new(rt.alloc()).expect(rt, "bytes");
    let mut rings = Rings::new(rt.alloc(), 1).expect(rt, "a ring");
    is_job(rt, head(&rings), None);
    push_free(rt, rt.alloc(), &mut rings, ONE, &[FILL, PROBE]);
    push_free(rt, rt.alloc(), &mut rings, TWO, &[PROBE, FILL]);
    assert_steps(rt, &mut rings, &mut stores, &mut out);
    is_job(rt, head(&rings), None);
    drop(rings);
    drop(stores);
}

/// Makes a set that has a reader of the first job.
fn with_reader(rt: &impl Abort, alloc: Global) -> FenceSet {
    let mut waits = FenceSet::new(alloc, 1).expect(rt, "a context");
    if 0 < waits.contexts() {
        waits.add(ONE, Usage::Read);
    }
    waits
}

/// Asserts that the head has run no packet and waits for the first job.
fn assert_waits(rt: &impl Abort, rings: &Rings, timeline: &Timeline) {
    ensure(rt, timeline.contexts() == rings.contexts());
    ensure(rt, 0 < rings.contexts());
    ensure(rt, rings.head(0).is_some());
    is_job(rt, rings.ready(0, timeline), Some(ONE));
    ensure(rt, rings.ran(0) == 0);
}

/// A job waits for readers too.
#[test]
fn head_waits_for_all_usages(rt: HostRuntime) {
    let rt = &rt;
    let timeline = Timeline::new(rt.alloc(), 1).expect(rt, "a context");
    let mut rings = Rings::new(rt.alloc(), 1).expect(rt, "a ring");
    let waits = with_reader(rt, rt.alloc());
    push(rt, &mut rings, TWO, waits, Vec::new(rt.alloc()));
    assert_waits(rt, &rings, &timeline);
    drop(rings);
}
