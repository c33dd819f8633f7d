//! Sources from which bytes are read and sinks to which they are written. Both may fail, and count how often they did.
#![tactic(auto)]

ghost use Rattle.std.specs.Prelude.{◌≡◌, ℕ, List, ◌<◌, ◌≤◌, ◌↔◌, [], Option, length, take, IfOk, IfSome, IsTrue, MatchResult};
ghost use Rattle.std.specs.Io.KnownBytes.{append_known, prepend_known};
ghost use Rattle.io_edge.specs.Faults.{faults_after};
ghost use Rattle.io_edge.specs.Lines.{is_line};

pub mod memory;
pub mod standard;
pub mod whole;

pub use memory::{MemSink, MemSource};
pub use standard::{StdSink, StdSource};
pub use whole::{ReadFault, read_all, write_all};

/// The error of a read or a write that failed.
#[derive(Clone, Copy, Debug, PartialEq, Eq)]
pub struct Failed;

/// A source of bytes.
pub trait Source {
    /// The bytes that are left, if the source tells them.
    ghost left: { Self → Option (List ℕ) };

    /// The number of calls that have failed so far, counted up to `u64::MAX`.
    ghost faults: { Self → ℕ };

    /// Moves the first bytes that are left into the buffer, and returns how many. 0 is the end of input.
    fn read(&mut self, buffer: &mut [u8]) -> Result<usize, Failed>
        requires { 0 < length buffer.old }
        ensures bound { IfOk result (λ n. n ≤ length buffer.new) }
        ensures moved { MatchResult result
            (λ n. left self.old ≡ prepend_known (take n buffer.new) (left self.new))
            (λ _. left self.new ≡ left self.old) }
        ensures end { IfOk result (λ n. IfSome (left self.old) (λ bytes. (n ≡ 0) ↔ (bytes ≡ []))) }
        ensures faults { faults self.new ≡ faults_after result (faults self.old) };
}

/// A sink of bytes.
pub trait Sink {
    /// The bytes that were written, if the sink tells them.
    ghost written: { Self → Option (List ℕ) };

    /// The number of calls that have failed so far, counted up to `u64::MAX`.
    ghost faults: { Self → ℕ };

    /// The number of calls so far that were given a piece that isn't a line, as a sink may count them: only such a call
    /// changes it.
    ghost broken: { Self → ℕ };

    /// Appends the first bytes of the piece, and returns how many, which is never 0.
    fn write(&mut self, piece: &[u8]) -> Result<usize, Failed>
        requires { 0 < length piece.now }
        ensures some { IfOk result (λ n. 1 ≤ n) }
        ensures bound { IfOk result (λ n. n ≤ length piece.now) }
        ensures moved { MatchResult result
            (λ n. written self.new ≡ append_known (written self.old) (take n piece.now))
            (λ _. written self.new ≡ written self.old) }
        ensures faults { faults self.new ≡ faults_after result (faults self.old) }
        ensures lines { IsTrue (is_line piece.now) → broken self.new ≡ broken self.old };
}
