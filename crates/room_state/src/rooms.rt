ghost use Rattle.std.specs.Prelude.{◌≡◌, ℕ, ◌+◌, ◌<◌, ◌≤◌, [], IfOk, IsSome, IsTrue, OnOk, OnErr, length, option_and_then, option_copied, option_map, slice_get};
ghost use Rattle.journal_model.specs.rules.State.{buffer, course_of, course};
ghost use Rattle.journal_model.specs.rules.Choice.{choice as choice_of};
ghost use Rattle.journal_model.specs.statements.Complete.{is_complete};
ghost use Rattle.journal_model.specs.rules.Holds.{free_frame as frame_of, free_slot as slot_of};
ghost use Rattle.journal_model.specs.rules.Next.{head_of};
ghost use Rattle.journal_model.specs.rules.Places.{aperture};
ghost use Rattle.journal_model.specs.rules.PageSteps.{next_job as job_of, next_ghost as ghost_of};
ghost use Rattle.journal_model.specs.rules.Stores.{bytes_of};
ghost use Rattle.journal_model.specs.rules.Tasks.{stage_of, task_of};
ghost use Rattle.journal_model.specs.rules.Waits.{waited_for};
ghost use Rattle.laws.specs.lemma_bytes_told.Told.{IsThere};
ghost use Rattle.room_queries.specs.Heads.{number_left, head_piece};
ghost use Rattle.room_queries.specs.Uses.{jobs_before};
ghost use Rattle.journal_model.specs.rules.Commands.{command_at_work as command_of};
ghost use Rattle.journal_model.specs.scripts.ScriptRules.{is_script};
ghost use Rattle.journal_model.specs.rules.Legal.{IsLegal};
ghost use Rattle.room_representation.specs.lemma_lists.Listed.{HasLists};
ghost use Rattle.room_representation.specs.Bos.{AreBos, unfenced};
ghost use Rattle.room_representation.specs.steps.Lent.{as_buffer};
ghost use Rattle.room_representation.specs.Ghosts.{AreGhosts};
ghost use Rattle.room_representation.specs.Held.{AreHeld};
ghost use Rattle.room_representation.specs.Lines.{IsTimeline};
ghost use Rattle.room_representation.specs.RingJobs.{AreRings};
ghost use Rattle.room_state.specs.Kept.{with_entry, state_behind, world_behind, MayAppend};
ghost use Rattle.aperture_table.specs.Translation.{frame_at};

use crate::beginning::first_parts;
use crate::make::make_parts;
use aperture_table::Aperture;
use bo_table::{Bo, BoTable};
use copy_engine::Rings;
use copy_packet::ProbeBytes;
use fence_core::Timeline;
use journal_model::{Command, Course, Entry, Script, Stage, Task};
use lru_bulk::Lru;
use room_representation::{Ghost, Parts};
use state_words::commands_of;
use std::alloc::Global;
use std::marker::Model;
use ttm_base::{BufId, ItemList, JobId, NoMemory, Place, Spans, Stamp, Usage};

/// The whole state in its parts, seen as a script and a journal.
pub struct Rooms {
    alloc: Global,
    script: Script,
    journal: ItemList<Entry>,
    parts: Parts,
}

/// Written by hand, so that no crate above has to prove how each part is dropped.
impl Drop for Rooms {
    fn drop(self) {
        let Self {
            alloc: _,
            script: _,
            journal: _,
            parts: _,
        } = self;
    }
}

impl Model for Rooms {
    ghost use Rattle.room_state.specs.Kept.{Kept};
    ghost use Rattle.room_representation.specs.Held.{AreHeld};

    ghost Value = { Kept };

    ghost view = { λ r. record { script = r.script; journal = r.journal } };

    ghost invariant = { λ r. AreHeld r.script r.journal r.parts };
}

impl Rooms {
    /// Makes the state at the start of `script`: all buffers dead, all pages free, and each thread at its first command.
    ///
    /// # Errors
    ///
    /// Lack of memory.
    pub fn new(alloc: Global, script: Script) -> Result<Rooms, NoMemory>
        requires { IsTrue (is_script script) }
        ensures { IfOk result (λ r. r ≡ record { script = script; journal = [] }) }
    {
        let parts = first_parts(alloc, &script)?;
        Ok(Rooms {
            alloc,
            script,
            journal: ItemList::new(alloc),
            parts,
        })
    }

    /// Returns the script that is run.
    pub fn script(&self) -> &Script
        ensures script { result.now ≡ self.now.script }
        ensures fits { IsTrue (is_script self.now.script) }
    {
        &self.script
    }

    /// Returns the entries so far, which are legal.
    pub fn journal(&self) -> &[Entry]
        ensures journal { result.now ≡ self.now.journal }
        ensures fits { IsTrue (is_script self.now.script) }
        ensures legal { IsLegal self.now.script self.now.journal }
    {
        self.journal.items()
    }

    /// Returns where `thread` stands.
    pub fn course(&self, thread: u32) -> &Course
        requires { IsSome (course_of (state_behind self.now) thread) }
        ensures { result.now ≡ course (state_behind self.now) thread }
    {
        self.parts.courses.get(thread as usize - 1)
    }

    /// Returns the command that `thread` is at, or None where none is left.
    pub fn command(&self, thread: u32) -> Option<&Command>
        requires { IsSome (course_of (state_behind self.now) thread) }
        ensures { option_copied result ≡ command_of self.now.script (state_behind self.now) thread }
    {
        let answered = self.course(thread).answered;
        commands_of(&self.script, thread).get(answered as usize)
    }

    /// Returns the table of buffers.
    pub fn bos(&self) -> &BoTable
        ensures { AreBos self.now.script (state_behind self.now).core.buffers (state_behind self.now).reservations (state_behind self.now).last_jobs result.now }
    {
        &self.parts.bos
    }

    /// Returns the LRU lists, in eviction order.
    pub fn lru(&self) -> &Lru
        ensures { HasLists self.now.script (state_behind self.now) result.now }
    {
        &self.parts.lru
    }

    /// Returns the timeline, which tells how far the jobs of each context are.
    pub fn line(&self) -> &Timeline
        ensures { IsTimeline (state_behind self.now).core.jobs (state_behind self.now).last_jobs result.now }
    {
        &self.parts.timeline
    }

    /// Returns the rings, which keep the jobs that aren't done.
    pub fn rings(&self) -> &Rings
        ensures { AreRings (state_behind self.now).core.jobs (state_behind self.now).last_jobs result.now }
    {
        &self.parts.rings
    }

    /// Returns the ghosts that moved and freed buffers left behind, in order of making.
    pub fn ghosts(&self) -> &[Ghost]
        ensures { AreGhosts (state_behind self.now).core.jobs (state_behind self.now).last_jobs (state_behind self.now).core.ghosts result.now }
    {
        self.parts.ghosts.items()
    }

    /// Lends the aperture of its stores: each page of TT is mapped to the frame that the state names, or not at all. Takes no memory.
    pub fn aperture(&self) -> &Aperture
        ensures size { length result.now ≡ self.now.script.sizes.tt }
        ensures mapped { (page : ℕ) → frame_at result.now page ≡ aperture (state_behind self.now).core page }
    {
        &self.parts.stores.aper
    }

    /// Returns all parts.
    pub fn parts(&self) -> &Parts
        ensures { AreHeld self.now.script self.now.journal result.now }
    {
        &self.parts
    }

    /// Returns buffer `b`, which is live.
    pub fn lent(&self, b: BufId) -> &Bo
        requires { IsThere (state_behind self.now) b }
        ensures { as_buffer result.now ≡ unfenced (buffer (state_behind self.now) b) }
    {
        self.parts().bos.get(b)
    }

    /// Returns whether every command is answered, every job is done and there is no ghost.
    pub fn over(&self) -> bool
        ensures { result ≡ is_complete self.now.script self.now.journal }
    {
        room_queries::is_over(&self.parts, &self.script, self.journal.items())
    }

    /// Returns the lowest free frame, or None where all are held.
    pub fn free_frame(&self) -> Option<u32>
        ensures { result ≡ frame_of self.now.script (state_behind self.now).core }
    {
        room_queries::free_frame(&self.parts, &self.script, self.journal.items())
    }

    /// Returns the lowest free slot, or None where all are held.
    pub fn free_slot(&self) -> Option<u32>
        ensures { result ≡ slot_of self.now.script (state_behind self.now).core }
    {
        room_queries::free_slot(&self.parts, &self.script, self.journal.items())
    }

    /// Returns the stamp of the next ticket.
    pub fn next_stamp(&self) -> Stamp
        ensures { result.0 ≡ (state_behind self.now).last_stamp + 1 }
    {
        room_queries::next_stamp(&self.parts, &self.script, self.journal.items())
    }

    /// Returns the number of the next job of context `ctx`.
    pub fn next_job(&self, ctx: u32) -> u64
        requires { ctx ≤ self.now.script.sizes.engines }
        ensures { result ≡ job_of (state_behind self.now) ctx }
    {
        room_queries::next_job(&self.parts, &self.script, self.journal.items(), ctx)
    }

    /// Returns the number of the next ghost.
    pub fn next_ghost(&self) -> u64
        ensures { result ≡ ghost_of (state_behind self.now) }
    {
        room_queries::next_ghost(&self.parts, &self.script, self.journal.items())
    }

    /// Returns the job to wait for before the declared buffer `b` is used as `usage` tells, or None where there is none.
    pub fn need(&self, b: BufId, usage: Usage) -> Option<JobId>
        requires { b.0 < length self.now.script.buffers }
        ensures { result ≡ waited_for (state_behind self.now).core (jobs_before usage (buffer (state_behind self.now) b)) }
    {
        room_queries::need(&self.parts, &self.script, self.journal.items(), b, usage)
    }

    /// Returns the number of the first ghost, which is reaped next, or None where there is no ghost.
    pub fn first_ghost(&self) -> Option<u64>
        ensures { result ≡ option_map (λ g. g.num) (slice_get (state_behind self.now).core.ghosts 0) }
    {
        room_queries::first_ghost(&self.parts, &self.script, self.journal.items())
    }

    /// Returns the job that a ghost waits for, by its place `at` in the order of making.
    pub fn ghost_need(&self, at: usize) -> Option<JobId>
        ensures { result ≡ option_and_then (λ g. waited_for (state_behind self.now).core g.jobs) (slice_get (state_behind self.now).core.ghosts at) }
    {
        room_queries::ghost_need(&self.parts, &self.script, self.journal.items(), at)
    }

    /// Returns the job at the head of context `ctx`.
    pub fn head(&self, ctx: u32) -> Option<JobId>
        requires { ctx ≤ self.now.script.sizes.engines }
        ensures { result ≡ option_map (λ j. j.id) (head_of (state_behind self.now) ctx) }
    {
        room_queries::head(&self.parts, &self.script, self.journal.items(), ctx)
    }

    /// Returns the number of the next packet of the head of context `ctx`, or None where none is left.
    pub fn head_packet(&self, ctx: u32) -> Option<u32>
        requires { ctx ≤ self.now.script.sizes.engines }
        ensures { result ≡ number_left (head_of (state_behind self.now) ctx) }
    {
        room_queries::head_packet(&self.parts, &self.script, self.journal.items(), ctx)
    }

    /// Returns the job that the head of context `ctx` waits for.
    pub fn head_need(&self, ctx: u32) -> Option<JobId>
        requires { ctx ≤ self.now.script.sizes.engines }
        ensures { result ≡ option_and_then (λ j. waited_for (state_behind self.now).core j.waits) (head_of (state_behind self.now) ctx) }
    {
        room_queries::head_need(&self.parts, &self.script, self.journal.items(), ctx)
    }

    /// Returns what `thread` has to do next, which is nothing where there is no such thread.
    pub fn task(&self, thread: u32) -> Task
        ensures { result ≡ task_of self.now.script (state_behind self.now) thread }
    {
        crate::task_finding::task_of(&self.parts, &self.script, self.journal.items(), thread)
    }

    /// Returns the group of rules that gives the next entry of `thread`.
    pub fn stage(&self, thread: u32) -> Stage
        ensures { result ≡ stage_of (task_of self.now.script (state_behind self.now) thread) }
    {
        crate::task_finding::stage_of(self.task(thread))
    }

    /// Returns the pages that `place` has for the declared buffer `b`, or None where it has none. Nothing is changed.
    ///
    /// # Errors
    ///
    /// Lack of memory.
    pub fn choice(&mut self, b: BufId, place: &Place) -> Result<Option<Spans>, NoMemory>
        requires { b.0 < length self.old.script.buffers }
        ensures choice { IfOk result (λ found. found ≡ choice_of self.old.script (state_behind self.old).core b place.now) }
        ensures same { self.new ≡ self.old }
    {
        let entries = self.journal.items();
        room_queries::choice(&mut self.parts, self.alloc, &self.script, entries, b, place)
    }

    /// Writes `len` bytes of the live buffer `b` from `off` on to `out`, at most 256: those that the stores and slots have at its places. Takes no
    /// memory.
    pub fn shown(&self, b: BufId, off: u32, len: u32, out: &mut ProbeBytes)
        requires live { IsThere (state_behind self.now) b }
        requires short { len ≤ 256 }
        ensures { out.new ≡ bytes_of (world_behind self.now).stores (buffer (state_behind self.now) b) off len }
    {
        let entries = self.journal.items();
        room_queries::shown(&self.parts, &self.script, entries, b, off, len, out);
    }

    /// Writes the bytes that the next packet of the head of context `ctx` shows to `out`: none if the packet isn't a probe.
    pub fn probe(&self, ctx: u32, out: &mut ProbeBytes)
        requires { ctx ≤ self.now.script.sizes.engines }
        ensures { out.new ≡ head_piece (world_behind self.now) ctx }
    {
        room_queries::probe(&self.parts, &self.script, self.journal.items(), ctx, out);
    }

    /// Adds `entry`, which is legal next, to the journal, and brings the parts to the state after it.
    ///
    /// # Errors
    ///
    /// Lack of memory; nothing is changed.
    pub fn append(&mut self, entry: Entry) -> Result<(), NoMemory>
        requires { MayAppend self.old entry }
        ensures ok { OnOk result (self.new ≡ with_entry self.old entry) }
        ensures err { OnErr result (self.new ≡ self.old) }
    {
        let at = self.journal.len();
        self.journal.push(entry)?;
        let entries = self.journal.items();
        let before = &entries[..at];
        let entry = &entries[at];
        let made = make_parts(&mut self.parts, self.alloc, &self.script, before, entry);
        if made.is_err() {
            self.journal.truncate(at);
        }
        made
    }
}
