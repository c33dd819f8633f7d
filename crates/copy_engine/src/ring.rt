ghost use Rattle.std.specs.Prelude.{◌≡◌, ◌++◌, ◌∷◌, [], Some, IsSome, OnOk, OnErr, drop, slice_get};
ghost use Rattle.std.specs.Option.{option_copied, option_map, option_and_then};
ghost use Rattle.ttm_base.specs.declared.Packet.{Packet as Piece};
ghost use Rattle.copy_packet.specs.Runs.{CanRun};
ghost use Rattle.copy_engine.specs.Pushes.{packet_of, head_ran};
ghost use Rattle.copy_engine.specs.Packets.{HasRun, shown_by};

use crate::ring_job::RingJob;
use copy_packet::{ProbeBytes, Stores};
use std::alloc::Global;
use std::collections::VecDeque;
use std::marker::Model;
use ttm_base::NoMemory;

/// Jobs in the order in which they were pushed, seen as a list.
#[derive(Drop)]
pub struct Ring {
    jobs: VecDeque<RingJob>,
}

impl Model for Ring {
    ghost use Rattle.std.specs.Prelude.{List};
    ghost use Rattle.copy_engine.specs.Pushes.{Pushed};

    ghost Value = { List Pushed };

    ghost view = { λ r. r.jobs.items };
}

impl Ring {
    /// Returns a ring without a job.
    pub(crate) fn new(alloc: Global) -> Ring
        ensures { result ≡ [] }
    {
        Ring {
            jobs: VecDeque::new(alloc),
        }
    }

    /// Pushes a job at the end. Where memory is refused the ring stays as it was.
    pub(crate) fn push(&mut self, job: RingJob) -> Result<(), NoMemory>
        ensures ok { OnOk result (self.new ≡ self.old ++ job ∷ []) }
        ensures err { OnErr result (self.new ≡ self.old) }
    {
        self.jobs.push_back(job)?;
        Ok(())
    }

    /// Returns the first job, if there is one.
    pub(crate) fn first(&self) -> Option<&RingJob>
        ensures { option_copied result ≡ slice_get self.now 0 }
    {
        self.jobs.front()
    }

    /// Runs the next packet of the first job, and returns its number among the job's packets, from 0.
    pub(crate) fn run_next(&mut self, stores: &mut Stores, out: &mut ProbeBytes) -> u32
        requires left { IsSome (option_and_then packet_of (slice_get self.old 0)) }
        requires can { (packet : Piece) → option_and_then packet_of (slice_get self.old 0) ≡ Some packet → CanRun stores.old packet }
        ensures number { option_map (λ pushed. pushed.ran) (slice_get self.old 0) ≡ Some result }
        ensures ran { self.new ≡ head_ran self.old }
        ensures stores { (packet : Piece) → option_and_then packet_of (slice_get self.old 0) ≡ Some packet → HasRun packet stores.old stores.new }
        ensures out { (packet : Piece) → option_and_then packet_of (slice_get self.old 0) ≡ Some packet → out.new ≡ shown_by packet stores.old }
    {
        let head = &mut self.jobs[0];
        head.run_next(stores, out)
    }

    /// Drops the first job.
    pub(crate) fn drop_first(&mut self)
        ensures { self.new ≡ drop 1 self.old }
    {
        self.jobs.pop_front();
    }
}
