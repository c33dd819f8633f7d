ghost use Rattle.std.specs.Prelude.{OnOk, IfOk};
ghost use Rattle.test_device.specs.Steps.{AreInStep};

use super::bytes::compare_stores;
use super::difference::{Stop, agree, agree_all, agree_on};
use super::parts::compare_parts;
use super::replay::Replay;
use super::report::{compare_texts, report_of};
use device_core::Device;
use io_edge::MemSink;
use journal_model::{Entry, Kind};
use plain_accounts::accounts_of;
use script_text::read_script;
use std::alloc::Global;
use test_cases::When;
use ttm_base::{Actor, Logged, NoMemory, Turn};

/// A device on its parts that is asked once more where memory was lacking.
#[derive(Drop)]
pub struct Asked {
    pub device: Device,
    /// The number of turns that it couldn't take for lack of memory, and took when it was asked again.
    pub refused: u64,
}

/// A device on its parts and a plain one, of the same script, and parts that are given the plain one's entries.
#[derive(Drop)]
pub struct Pair {
    pub alloc: Global,
    pub when: When,
    pub asked: Asked,
    pub replay: Replay,
    /// The number of turns that were taken on both.
    pub turns: u64,
}

/// Returns the greatest number of a job of the context `ctx` that an entry of `journal` ends, or 0.
fn last_done(journal: &[Entry], ctx: u32) -> u64 {
    let mut most = 0;
    for entry in journal {
        if let (Actor::Engine(engine), Kind::Done { num }) = (entry.who, &entry.kind) {
            if engine == ctx && most < *num {
                most = *num;
            }
        }
    }
    most
}

impl Asked {
    /// Makes a device that runs the script of a text, and hasn't begun.
    fn of(alloc: Global, text: &[u8]) -> Result<Asked, Stop> {
        let device = Device::new(alloc, read_script(alloc, text)?)?;
        Ok(Asked { device, refused: 0 })
    }

    /// Takes a turn of `who`.
    fn step(&mut self, who: Actor) -> Result<Turn, NoMemory> {
        match self.device.step(who) {
            Ok(turn) => Ok(turn),
            Err(NoMemory) => {
                self.refused = self.refused.saturating_add(1);
                self.device.step(who)
            }
        }
    }

    /// Takes a turn in the simulator's order.
    fn step_next(&mut self) -> Result<Option<Actor>, NoMemory> {
        match self.device.step_next() {
            Ok(found) => Ok(found),
            Err(NoMemory) => {
                self.refused = self.refused.saturating_add(1);
                self.device.step_next()
            }
        }
    }
}

impl Pair {
    /// Makes all devices and parts of a text.
    ///
    /// # Errors
    ///
    /// A text that is no script, and lack of memory.
    pub fn of(alloc: Global, text: &[u8], when: When) -> Result<Pair, Stop>
        ensures { IfOk result (λ pair. AreInStep pair.replay.plain pair.replay.rooms) }
    {
        let asked = Asked::of(alloc, text)?;
        let replay = Replay::of(alloc, text)?;
        Ok(Pair {
            alloc,
            when,
            asked,
            replay,
            turns: 0,
        })
    }

    /// Compares the last job of each context that is done.
    fn compare_done(&self) -> Result<(), Stop> {
        let device = &self.asked.device;
        let journal = self.replay.plain.journal();
        let mut found = Ok(());
        for ctx in 0..=device.script().sizes.engines {
            let same = device.done(ctx) == last_done(journal, ctx);
            found = found.and(agree_on(same, "another last job of context ", u64::from(ctx)));
        }
        found
    }

    /// Compares what is to be the same after a turn: the number of entries, whether all is over, how far the contexts are; and at the start
    /// and where an entry may have been made (`is_entry`) what the parts tell, if they are compared then.
    ///
    /// # Errors
    ///
    /// A difference, or lack of memory.
    pub fn compare_turn(&self, is_entry: bool) -> Result<(), Stop>
        requires { AreInStep self.now.replay.plain self.now.replay.rooms }
    {
        let device = &self.asked.device;
        let plain = &self.replay.plain;
        let same_count = device.journal().len() == plain.journal().len();
        let found = agree_all(&[
            (same_count, "another number of entries"),
            (device.over() == plain.over(), "another end"),
        ])
        .and(self.compare_done());
        match self.when {
            When::EachEntry if is_entry => found.and(compare_parts(&self.replay, self.alloc)),
            _ => found,
        }
    }

    /// Takes a turn of `who` on both devices.
    ///
    /// # Errors
    ///
    /// A difference, or lack of memory.
    pub fn step(&mut self, who: Actor) -> Result<Turn, Stop>
        requires { AreInStep self.old.replay.plain self.old.replay.rooms }
        ensures { OnOk result (AreInStep self.new.replay.plain self.new.replay.rooms) }
    {
        self.turns = self.turns.saturating_add(1);
        match (self.replay.step(who), self.asked.step(who)) {
            (Ok(turn), Ok(here)) => {
                let is_made = matches!(&turn, Turn::Made(_));
                agree(here == turn, "another answer")
                    .and(self.compare_turn(is_made))
                    .and(Ok(turn))
            }
            _ => Err(Stop::NoMemory),
        }
    }

    /// Takes a turn in the simulator's order on both devices, if some actor has an entry. Returns whether one has.
    ///
    /// # Errors
    ///
    /// A difference, or lack of memory.
    pub fn step_next(&mut self) -> Result<bool, Stop>
        requires { AreInStep self.old.replay.plain self.old.replay.rooms }
        ensures { OnOk result (AreInStep self.new.replay.plain self.new.replay.rooms) }
    {
        match (self.replay.step_next(), self.asked.step_next()) {
            (Ok(who), Ok(here)) => {
                let is_same = here == who;
                let is_taken = who.is_some();
                self.turns = self.turns.saturating_add(u64::from(is_same & is_taken));
                agree(is_same, "another actor")
                    .and(self.compare_turn(true))
                    .and(Ok(is_taken))
            }
            _ => Err(Stop::NoMemory),
        }
    }

    /// Writes the report of the device on its parts.
    pub fn report_on_parts(&self) -> Result<MemSink, NoMemory> {
        let device = &self.asked.device;
        let accounts = device.accounts();
        report_of(self.alloc, device.script(), device.journal(), &accounts)
    }

    /// Compares all entries, results and accounts, by the reports of both.
    fn compare_told(&self) -> Result<(), Stop> {
        let plain = &self.replay.plain;
        let accounts = accounts_of(self.alloc, plain.script(), plain.state())?;
        let wanted = report_of(self.alloc, plain.script(), plain.journal(), &accounts)?;
        let here = self.report_on_parts()?;
        compare_texts(here.bytes(), wanted.bytes())
    }

    /// Compares what is to be the same after all turns: all entries, results, accounts and bytes, and what the parts tell.
    ///
    /// # Errors
    ///
    /// A difference, or lack of memory.
    pub fn compare_end(&self) -> Result<(), Stop>
        requires { AreInStep self.now.replay.plain self.now.replay.rooms }
    {
        let device = &self.asked.device;
        let parts = device.rooms().parts();
        self.compare_told()
            .and(compare_stores(parts, device.script().sizes, self.replay.plain.stores()))
            .and(compare_parts(&self.replay, self.alloc))
    }
}
