use crate::Device;
use journal_model::{Entry, Script};
use ttm_base::{Actor, Logged, NoMemory, Stepper, Turn};

impl Logged for Device {
    type Item = Entry;

    type Root = Script;

    ghost use Rattle.device_core.specs.Done.{done_of, done_of_grows};

    ghost list = { λ s. s.journal };

    ghost root = { λ s. s.script };

    ghost done = { done_of };

    fn count(&self) -> u64 {
        self.journal().len() as u64
    }

    fn done(&self, ctx: u32) -> u64 {
        self.reached(ctx)
    }

    ghost done_grows = { done_of_grows };
}

impl Stepper for Device {
    ghost use Rattle.journal_model.specs.statements.Complete.{is_complete};

    ghost is_over = { is_complete };

    fn step(&mut self, who: Actor) -> Result<Turn, NoMemory> {
        self.step(who)
    }

    fn over(&self) -> bool {
        self.over()
    }
}
