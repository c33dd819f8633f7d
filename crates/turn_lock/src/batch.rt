//! Batches of turns, as cohort locks have them: one caller takes several turns in a row, while others sleep until the
//! handoff. No turn needs a batch: a caller that waits too long for the handoff begins one.
ghost use Rattle.std.specs.Prelude.{◌≡◌, IfSome};
ghost use Rattle.turn_lock.specs.Batches.{Begins, Resumes, charged};

use std::sync::Wait;
use std::sync::atomic::AtomicU64;
use std::sync::atomic::Ordering::SeqCst;
use std::time::Duration;

/// The greatest budget of a batch.
const MAX_BUDGET: u64 = 64;

/// The longest time in milliseconds that a caller sleeps while one batch goes on.
const MAX_SLEEP_MILLIS: u64 = 20;

/// A word by which the lock is handed off from one batch of turns to the next.
#[derive(Drop)]
pub struct Handoff {
    /// Twice the number of batches that began, and one more while the handoff is offered.
    word: AtomicU64,
}

/// The turns that one caller takes in a row.
#[derive(Clone, Copy)]
pub struct Batch {
    word: u64,
    /// The rest of its budget. At 0 the handoff is offered.
    pub left: u64,
}

impl Handoff {
    /// Returns a handoff that is offered.
    pub(crate) fn new() -> Handoff {
        Handoff {
            word: AtomicU64::new(1),
        }
    }

    /// Continues `batch` if no other one began since. Otherwise waits for the handoff, and begins a batch.
    pub fn resume<R: Wait>(&self, rt: &R, batch: Option<Batch>) -> Batch
        ensures { Resumes batch result }
    {
        match batch {
            Some(batch) if self.word.load(SeqCst) | 1 == batch.word | 1 => batch,
            _ => self.enter(rt),
        }
    }

    /// Takes `cost` off the budget of `batch`, down to 0 at least. Offers the handoff where nothing is left.
    pub fn charge(&self, batch: Batch, cost: u64) -> Batch
        ensures { result ≡ charged batch cost }
    {
        let left = batch.left.saturating_sub(cost);
        if left == 0 {
            self.offer(batch);
        }
        Batch {
            word: batch.word,
            left,
        }
    }

    /// Offers the handoff, unless it is offered already or another batch began.
    fn offer(&self, batch: Batch) {
        let offered = self
            .word
            .compare_exchange(batch.word, batch.word | 1, SeqCst, SeqCst);
        if offered.is_ok() {
            self.word.wake_one();
        }
    }

    /// Begins a batch as soon as the handoff is offered, or after one batch went on for all the time that the caller slept.
    fn enter<R: Wait>(&self, rt: &R) -> Batch
        ensures { Begins result }
    {
        let mut before = None;
        for _ in rt.forever() {
            let word = self.word.load(SeqCst);
            if word % 2 == 0 && before != Some(word) {
                before = Some(word);
                let time = Duration::from_millis(MAX_SLEEP_MILLIS);
                self.word.park_timeout(rt, (word % (1 << 32)) as u32, time);
            } else if let Some(batch) = self.begin(word) {
                return batch;
            }
        }
        unreachable!()
    }

    /// Begins a batch, if the word of the handoff is still `word`, else returns None. Budgets differ, so that handoffs come
    /// at other entries each time.
    fn begin(&self, word: u64) -> Option<Batch>
        ensures { IfSome result Begins }
    {
        let next = (word | 1).wrapping_add(1);
        let taken = self.word.compare_exchange(word, next, SeqCst, SeqCst);
        taken.ok().map(|_| Batch {
            word: next,
            left: 1 + next / 2 % MAX_BUDGET,
        })
    }
}
