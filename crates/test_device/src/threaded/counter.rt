//! A value of two actors: a thread that submits jobs, and an engine that does them. Each job waits for the one before.
ghost use Rattle.std.specs.Prelude.{◌≡◌, ℕ, ◌+◌, ◌*◌, ◌≤◌, ◌<◌, ◌^◌, [], ◌∷◌, ◌++◌, length, IfOk, MatchResult};
ghost use Rattle.ttm_base.specs.declared.Turn.TheVariants.{Made};

use std::alloc::Global;
use ttm_base::{Actor, JobId, Logged, Need, NoMemory, Stepper, Turn};

#[derive(Drop)]
pub struct Counter {
    limit: u64,
    journal: Vec<u64>,
    /// The number of rounds of a sum that a step takes, and what it came to.
    rounds: u32,
    sum: u64,
    ghost small: { limit < 2 ^ 32 },
}

impl Counter {
    /// Makes a value whose steps take `rounds` rounds of a sum: with many, workers that wait for a turn meanwhile do sleep.
    pub fn new(alloc: Global, limit: u32, rounds: u32) -> Counter
        ensures { (result.limit ≡ limit) × (result.journal.items ≡ []) }
    {
        Counter {
            limit: limit as u64,
            journal: Vec::new(alloc),
            rounds,
            sum: 0,
        }
    }

    /// Spends a while on the rounds of a sum.
    fn linger(&mut self)
        ensures { (self.new.limit ≡ self.old.limit) × (self.new.journal.items ≡ self.old.journal.items) }
    {
        let mut sum = self.sum;
        for round in 0..self.rounds {
            sum = (sum ^ (sum >> 7))
                .wrapping_mul(31)
                .wrapping_add(u64::from(round));
        }
        self.sum = sum;
    }

    fn add(&mut self, entry: u64) -> Result<Turn, NoMemory>
        ensures limit { self.new.limit ≡ self.old.limit }
        ensures added { MatchResult result (λ t. (t ≡ Made (length self.new.journal.items)) × (self.new.journal.items ≡ self.old.journal.items ++ entry ∷ [])) (λ _. self.new.journal.items ≡ self.old.journal.items) }
    {
        if self.journal.push(entry).is_err() {
            return Err(NoMemory);
        }
        Ok(Turn::Made(self.journal.len() as u64))
    }
}

impl Logged for Counter {
    type Item = u64;

    type Root = u64;

    ghost use Rattle.test_device.specs.Counting.{done_of, done_of_grows};

    ghost list = { λ s. s.journal.items };

    ghost root = { λ s. s.limit };

    ghost done = { done_of };

    fn count(&self) -> u64 {
        self.journal.len() as u64
    }

    fn done(&self, ctx: u32) -> u64 {
        if ctx == 0 {
            self.journal.len() as u64 / 2
        } else {
            0
        }
    }

    ghost done_grows = { done_of_grows };
}

impl Stepper for Counter {
    ghost use Rattle.test_device.specs.Counting.{is_over_at};

    ghost is_over = { is_over_at };

    fn step(&mut self, who: Actor) -> Result<Turn, NoMemory> {
        self.linger();
        let made = self.journal.len() as u64;
        if made >= 2 * self.limit {
            return Ok(Turn::Over);
        }
        let num = made / 2 + 1;
        let submits = made % 2 == 0;
        match who {
            Actor::Thread(1) => {
                if submits {
                    self.add(num)
                } else {
                    Ok(Turn::Blocked(Need::Fence(JobId { ctx: 0, num })))
                }
            }
            Actor::Engine(0) => {
                if submits {
                    Ok(Turn::Blocked(Need::NoJob))
                } else {
                    self.add(num)
                }
            }
            _ => Ok(Turn::Blocked(Need::NoCommand)),
        }
    }

    fn over(&self) -> bool {
        self.journal.len() as u64 >= 2 * self.limit
    }
}
