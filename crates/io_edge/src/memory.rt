ghost use Rattle.std.specs.Prelude.{◌≡◌, ◌<◌, ◌≤◌, ◌↔◌, [], Some, ◌++◌, drop, min, length, take, IfOk, IfSome, MatchResult, if◌then◌else◌};
ghost use Rattle.std.specs.Io.KnownBytes.{append_known, prepend_known};
ghost use Rattle.io_edge.specs.Faults.{faults_after, one_more};
ghost use Rattle.io_edge.specs.Memory.{Drain, Feed, after_read, after_write, is_due, read_answer, write_answer};

use crate::{Failed, Sink, Source};
use std::alloc::Global;
use std::marker::Model;
use ttm_base::NoMemory;

/// A plan of the calls: how many bytes a call moves, which calls fail, and how many calls there were.
#[derive(Drop)]
struct Plan {
    chunk: usize,
    fails: Vec<u64>,
    calls: u64,
    faults: u64,
}

impl Plan {
    fn new(chunk: usize, fails: Vec<u64>) -> Plan
        ensures { result ≡ record { chunk = chunk; fails = fails; calls = 0; faults = 0 } }
    {
        Plan {
            chunk,
            fails,
            calls: 0,
            faults: 0,
        }
    }

    /// Counts a call, and returns whether it is one that fails.
    fn count_call(&mut self) -> bool
        ensures due { result ≡ is_due self.old.fails.items self.old.calls }
        ensures after { self.new ≡ record self.old { calls = one_more self.old.calls } }
    {
        let number = u128::from(self.calls) + 1;
        self.calls = self.calls.saturating_add(1);
        self.fails.iter().any(|n| u128::from(*n) == number)
    }

    /// Counts a failed call, and returns the error.
    fn count_fault(&mut self) -> Failed
        ensures { self.new ≡ record self.old { faults = one_more self.old.faults } }
    {
        self.faults = self.faults.saturating_add(1);
        Failed
    }
}

/// Copies the first bytes of `from` over the first bytes of `to`, at most `most` of them, and returns how many.
fn move_front(from: &[u8], to: &mut [u8], most: usize) -> usize
    ensures count { result ≡ min most (min (length to.old) (length from.now)) }
    ensures moved { to.new ≡ take result from.now ++ drop result to.old }
{
    let n = most.min(to.len().min(from.len()));
    to[..n].copy_from_slice(&from[..n]);
    n
}

/// A source of bytes in memory, which tells its bytes.
#[derive(Drop)]
pub struct MemSource {
    bytes: Vec<u8>,
    at: usize,
    plan: Plan,
}

impl Model for MemSource {
    ghost use Rattle.std.specs.Prelude.{◌≤◌, drop, vec_len};
    ghost use Rattle.io_edge.specs.Memory.{Feed};

    ghost Value = { Feed };

    ghost view = { λ s. record { left = drop s.at s.bytes.items; chunk = s.plan.chunk; fails = s.plan.fails.items; calls = s.plan.calls; faults = s.plan.faults } };

    ghost invariant = { λ s. (s.at ≤ vec_len s.bytes) × (1 ≤ s.plan.chunk) };
}

impl MemSource {
    /// Returns a source of `bytes`. A call moves at most `chunk` of them. The calls with the numbers in `fails`, counted
    /// from 1, fail, and no others.
    pub fn new(bytes: Vec<u8>, chunk: usize, fails: Vec<u64>) -> MemSource
        requires { 1 ≤ chunk }
        ensures { result ≡ record { left = bytes.items; chunk = chunk; fails = fails.items; calls = 0; faults = 0 } }
    {
        MemSource {
            bytes,
            at: 0,
            plan: Plan::new(chunk, fails),
        }
    }
}

impl Source for MemSource {
    ghost left = { λ s. Some s.left };

    ghost faults = { λ s. s.faults };

    #[tactic(auto, using(crate::proofs::Moves::front_and_rest, crate::proofs::Moves::none_moved))]
    fn read(&mut self, buffer: &mut [u8]) -> Result<usize, Failed>
        requires { 0 < length buffer.old }
        ensures bound { IfOk result (λ n. n ≤ length buffer.new) }
        ensures moved { MatchResult result
            (λ n. Some self.old.left ≡ prepend_known (take n buffer.new) (Some self.new.left))
            (λ _. Some self.new.left ≡ Some self.old.left) }
        ensures end { IfOk result (λ n. IfSome (Some self.old.left) (λ bytes. (n ≡ 0) ↔ (bytes ≡ []))) }
        ensures faults { self.new.faults ≡ faults_after result self.old.faults }

        // Exactly what the call returns, and what it leaves.
        ensures answer { result ≡ read_answer self.old (length buffer.old) }
        ensures after { self.new ≡ after_read self.old (length buffer.old) }
    {
        if self.plan.count_call() {
            return Err(self.plan.count_fault());
        }
        let n = move_front(&self.bytes[self.at..], buffer, self.plan.chunk);
        self.at += n;
        Ok(n)
    }
}

/// A sink in memory, which tells its bytes.
#[derive(Drop)]
pub struct MemSink {
    bytes: Vec<u8>,
    room: usize,
    plan: Plan,
}

impl Model for MemSink {
    ghost use Rattle.std.specs.Prelude.{◌≤◌, vec_len, vec_capacity};
    ghost use Rattle.io_edge.specs.Memory.{Drain};

    ghost Value = { Drain };

    ghost view = { λ s. record { written = s.bytes.items; room = s.room; chunk = s.plan.chunk; fails = s.plan.fails.items; calls = s.plan.calls; faults = s.plan.faults } };

    ghost invariant = { λ s. (vec_len s.bytes ≤ s.room) × (s.room ≤ vec_capacity s.bytes) × (1 ≤ s.plan.chunk) };
}

impl MemSink {
    /// Returns a sink with memory for `room` bytes. A call moves at most `chunk` bytes. The calls with the numbers in
    /// `fails`, counted from 1, fail, and those with no room left.
    pub fn new(
        alloc: Global,
        room: usize,
        chunk: usize,
        fails: Vec<u64>,
    ) -> Result<MemSink, NoMemory>
        requires { 1 ≤ chunk }
        ensures { IfOk result (λ sink. sink ≡ record { written = []; room = room; chunk = chunk; fails = fails.items; calls = 0; faults = 0 }) }
    {
        let bytes = Vec::with_capacity(alloc, room)?;
        Ok(MemSink {
            bytes,
            room,
            plan: Plan::new(chunk, fails),
        })
    }

    /// Lends the bytes that were written.
    pub fn bytes(&self) -> &[u8]
        ensures { result.now ≡ self.now.written }
    {
        self.bytes.as_slice()
    }
}

impl Sink for MemSink {
    ghost written = { λ s. Some s.written };

    ghost faults = { λ s. s.faults };

    ghost broken = { λ _. 0 };

    fn write(&mut self, piece: &[u8]) -> Result<usize, Failed>
        requires { 0 < length piece.now }
        ensures some { IfOk result (λ n. 1 ≤ n) }
        ensures bound { IfOk result (λ n. n ≤ length piece.now) }
        ensures moved { MatchResult result
            (λ n. Some self.new.written ≡ append_known (Some self.old.written) (take n piece.now))
            (λ _. Some self.new.written ≡ Some self.old.written) }
        ensures faults { self.new.faults ≡ faults_after result self.old.faults }

        // Exactly what the call returns, and what it leaves.
        ensures answer { result ≡ write_answer self.old (length piece.now) }
        ensures after { self.new ≡ after_write self.old piece.now }
    {
        let is_due = self.plan.count_call();
        let room = self.room - self.bytes.len();
        if is_due || room == 0 {
            return Err(self.plan.count_fault());
        }
        let n = self.plan.chunk.min(piece.len().min(room));
        self.bytes.extend_from_slice(&piece[..n]).unwrap();
        Ok(n)
    }
}
