//! A gate and a sink that tell whether workers were held as they should be, and whether a turn was taken after something was written.
ghost use Rattle.std.specs.Prelude.{◌≡◌, ◌<◌, ◌≤◌, [], Some, length, take, IfOk, MatchResult};
ghost use Rattle.std.specs.Io.KnownBytes.{append_known};
ghost use Rattle.io_edge.specs.Faults.{faults_after};

use crate::pieces::{print_all, word_for};
use io_edge::{Failed, MemSink, Sink};
use std::io;
use std::sync::atomic::Ordering::SeqCst;
use std::sync::atomic::{AtomicBool, AtomicU64};
use test_cases::{Case, Hold};
use worker_pool::Gate;

/// The number of times that a worker looks for a flag at most.
const MOST_LOOKS: u64 = 1_000_000_000;

/// What was seen of turns and writes, and two flags that one worker raises and others wait for.
#[derive(Drop)]
pub struct Watch {
    hold: Hold,
    first: AtomicBool,
    second: AtomicBool,
    /// Whether some worker looked for a flag as often as it may.
    is_missed: AtomicBool,
    turns: AtomicU64,
    writes: AtomicU64,
    is_late: AtomicBool,
}

impl Watch {
    /// Makes a gate that holds workers as `hold` says, or nobody. A flag that no worker waits for is up.
    pub fn new(hold: Option<Hold>) -> Watch {
        let hold = hold.unwrap_or(Hold::Nobody);
        Watch {
            hold,
            first: AtomicBool::new(matches!(hold, Hold::Nobody)),
            second: AtomicBool::new(matches!(hold, Hold::Nobody | Hold::UntilSeventhOf(_))),
            is_missed: AtomicBool::new(false),
            turns: AtomicU64::new(0),
            writes: AtomicU64::new(0),
            is_late: AtomicBool::new(false),
        }
    }

    /// Waits until `flag` is up.
    fn wait(&self, flag: &AtomicBool) {
        for _look in 0..MOST_LOOKS {
            if flag.load(SeqCst) {
                return;
            }
        }
        self.is_missed.store(true, SeqCst);
    }

    /// Holds `worker` before its turn `turn`, if the gate holds it there.
    fn hold(&self, worker: u32, turn: u64) {
        match (self.hold, worker, turn) {
            (Hold::UntilTheyMeet, 1, 1) | (Hold::InBatchOfFirst, 1, 2) => {
                self.first.store(true, SeqCst);
                self.wait(&self.second);
            }
            (Hold::UntilTheyMeet, 2, 1) => {
                self.second.store(true, SeqCst);
                self.wait(&self.first);
            }
            (Hold::UntilSeventhOf(ahead), _, 7) if worker == ahead => self
                .first
                .store(true, SeqCst),
            (Hold::UntilSeventhOf(ahead), _, 1) if worker != ahead => self.wait(&self.first),
            (Hold::InBatchOfFirst, _, 1) if worker != 1 => self.wait(&self.first),
            (Hold::InBatchOfFirst, _, 3) if worker != 1 => self.second.store(true, SeqCst),
            _ => {}
        }
    }

    /// Returns whether each worker that was held was let go by the one that it waited for.
    pub fn has_held(&self) -> bool {
        self.first.load(SeqCst) & self.second.load(SeqCst) & !self.is_missed.load(SeqCst)
    }

    /// Prints what was seen, if the case asks for it: whether workers were held, and whether there were enough turns and something was
    /// written, and no turn after that.
    pub fn print(&self, rt: &impl Print, case: &Case) -> io::Result<()> {
        if case.watched.is_none() {
            return Ok(());
        }
        let turns = case.least_turns;
        let held = self.has_held();
        let is_enough = self.turns.load(SeqCst) >= turns;
        let is_written = self.writes.load(SeqCst) > 0;
        let last = is_enough & is_written & !self.is_late.load(SeqCst);
        print_all(
            rt,
            &[
                ("workers held: ", None),
                word_for(held),
                (", then written, after ", Some(turns)),
                (" turns or more: ", None),
                word_for(last),
                ("\n", None),
            ],
        )
    }
}

impl Gate for Watch {
    fn before_turn(&self, worker: u32, turn: u64) {
        self.turns.fetch_add(1, SeqCst);
        if self.writes.load(SeqCst) > 0 {
            self.is_late.store(true, SeqCst);
        }
        self.hold(worker, turn);
    }
}

/// A sink that tells the watch of each write.
pub struct WatchedSink<'a> {
    pub sink: MemSink,
    pub watch: &'a Watch,
}

impl<'a> Sink for WatchedSink<'a> {
    ghost written = { λ s. Some s.sink.written };

    ghost faults = { λ s. s.sink.faults };

    ghost broken = { λ _. 0 };

    fn write(&mut self, piece: &[u8]) -> Result<usize, Failed>
        requires { 0 < length piece.now }
        ensures some { IfOk result (λ n. 1 ≤ n) }
        ensures bound { IfOk result (λ n. n ≤ length piece.now) }
        ensures moved { MatchResult result
            (λ n. Some self.new.sink.written ≡ append_known (Some self.old.sink.written) (take n piece.now))
            (λ _. Some self.new.sink.written ≡ Some self.old.sink.written) }
        ensures faults { self.new.sink.faults ≡ faults_after result self.old.sink.faults }
    {
        self.watch.writes.fetch_add(1, SeqCst);
        self.sink.write(piece)
    }
}
