ghost use Rattle.std.specs.Prelude.{◌≡◌, ◌+◌, ◌^◌, ◌<◌, Some, IsSome, length};
ghost use Rattle.std.specs.Option.{option_copied};
ghost use Rattle.ttm_base.specs.declared.Packet.{Packet as Piece};
ghost use Rattle.copy_packet.specs.Runs.{CanRun};
ghost use Rattle.copy_engine.specs.Pushes.{packet_of, wait_of, after_packet_of};
ghost use Rattle.copy_engine.specs.Packets.{HasRun, shown_by};

use copy_packet::{ProbeBytes, Stores, run};
use fence_core::{FenceSet, Timeline};
use std::marker::Model;
use ttm_base::{JobId, Packet, Usage};

/// A job in a ring, with the jobs that it waits for, its packets, and the number of them that have run.
pub struct RingJob {
    job: JobId,
    waits: FenceSet,
    packets: Vec<Packet>,
    ran: u32,
}

/// Names each part, so that no crate above proves how they are dropped.
impl Drop for RingJob {
    fn drop(self) {
        let Self {
            job: _,
            waits: _,
            packets: _,
            ran: _,
        } = self;
    }
}

impl Model for RingJob {
    ghost use Rattle.std.specs.Prelude.{◌<◌, ◌^◌, length};
    ghost use Rattle.copy_engine.specs.Pushes.{Pushed};

    ghost Value = { Pushed };

    ghost view = { λ j. record { job = j.job; waits = j.waits; packets = j.packets.items; ran = j.ran } };

    ghost invariant = { λ j. length j.packets.items < 2 ^ 32 };
}

impl RingJob {
    /// Returns a job of which no packet has run.
    pub(crate) fn new(job: JobId, waits: FenceSet, packets: Vec<Packet>) -> RingJob
        requires { length packets.items < 2 ^ 32 }
        ensures { result ≡ record { job = job; waits = waits; packets = packets.items; ran = 0 } }
    {
        RingJob {
            job,
            waits,
            packets,
            ran: 0,
        }
    }

    pub(crate) fn job(&self) -> JobId
        ensures { result ≡ self.now.job }
    {
        self.job
    }

    /// Returns a job that this one waits for, or None where all of those are done.
    pub(crate) fn wait(&self, timeline: &Timeline) -> Option<JobId>
        requires { length self.now.waits ≡ length timeline.now }
        ensures { result ≡ wait_of timeline.now self.now }
    {
        self.waits.need(Usage::Read, timeline)
    }

    /// Returns the next packet of the job, if one is left.
    pub(crate) fn next(&self) -> Option<&Packet>
        ensures { option_copied result ≡ packet_of self.now }
    {
        self.packets.get(self.ran as usize)
    }

    /// Returns how many packets of the job have run.
    pub(crate) fn ran(&self) -> u32
        ensures { result ≡ self.now.ran }
    {
        self.ran
    }

    /// Runs the next packet of the job, and returns its number among the job's packets, from 0.
    pub(crate) fn run_next(&mut self, stores: &mut Stores, out: &mut ProbeBytes) -> u32
        requires left { IsSome (packet_of self.old) }
        requires can { (packet : Piece) → packet_of self.old ≡ Some packet → CanRun stores.old packet }
        ensures number { result ≡ self.old.ran }
        ensures ran { self.new ≡ after_packet_of self.old }
        ensures stores { (packet : Piece) → packet_of self.old ≡ Some packet → HasRun packet stores.old stores.new }
        ensures out { (packet : Piece) → packet_of self.old ≡ Some packet → out.new ≡ shown_by packet stores.old }
    {
        let number = self.ran;
        let packet = self.packets[number as usize];
        run(&packet, stores, out);
        self.ran = number + 1;
        number
    }
}
