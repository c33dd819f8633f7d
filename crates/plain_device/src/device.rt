ghost use Rattle.std.specs.Prelude.{◌≡◌, ◌↔◌, ◌+◌, ◌<◌, ◌^◌, ◌∷◌, ◌++◌, [], false, IfOk, OnOk, OnErr, Ok, IsTrue, find, length};
ghost use Rattle.journal_model.specs.scripts.ScriptRules.{is_script};
ghost use Rattle.journal_model.specs.statements.Complete.{is_complete};
ghost use Rattle.journal_model.specs.rules.Legal.{state_of, stores_of};
ghost use Rattle.journal_model.specs.statements.DeadEnd.{can_step};
ghost use Rattle.journal_model.specs.statements.Scheduled.{own_order};
ghost use Rattle.laws.specs.law_sound.Sound.{SomeGoesOn};
ghost use Rattle.rules_stores.specs.Kept.{bytes_of};
ghost use Rattle.plain_device.specs.Kept.{entry_of, with_entry, turn_of, after_turn};

use crate::enact::enact;
use journal_model::{Entry, Script, State};
use rules_apply::first_state;
use rules_next::next;
use rules_next::turns::{is_over, next_actor};
use rules_stores::PlainStores;
use std::alloc::Global;
use std::marker::Model;
use ttm_base::{Actor, ItemList, Need, NoMemory, Turn};

/// A memory manager that runs a script, and the journal of what it did.
pub struct Device {
    alloc: Global,
    script: Script,
    journal: ItemList<Entry>,
    state: State,
    stores: PlainStores,
}

/// By hand, so that no crate above has to prove how each part goes.
impl Drop for Device {
    fn drop(self) {
        let Self {
            alloc: _,
            script: _,
            journal: _,
            state: _,
            stores: _,
        } = self;
    }
}

impl Model for Device {
    ghost use Rattle.plain_device.specs.Kept.{Kept};
    ghost use Rattle.plain_device.specs.Held.{IsHeld};
    ghost use Rattle.rules_stores.specs.Kept.{bytes_of};

    ghost Value = { Kept };

    ghost view = { λ d. record { script = d.script; journal = d.journal } };

    ghost invariant = { λ d. IsHeld d.script d.journal d.state d.stores.sizes (bytes_of d.stores) };
}

impl Device {
    /// Makes a device that hasn't begun.
    ///
    /// # Errors
    ///
    /// Lack of memory.
    pub fn new(alloc: Global, script: Script) -> Result<Device, NoMemory>
        requires { IsTrue (is_script script) }
        ensures { IfOk result (λ d. d ≡ record { script = script; journal = [] }) }
    {
        let state = first_state(alloc, &script)?;
        let stores = PlainStores::new(alloc, script.sizes)?;
        Ok(Device {
            alloc,
            script,
            journal: ItemList::new(alloc),
            state,
            stores,
        })
    }

    /// Returns the script that is run.
    pub fn script(&self) -> &Script
        ensures { result.now ≡ self.now.script }
    {
        &self.script
    }

    /// Returns the entries so far.
    pub fn journal(&self) -> &[Entry]
        ensures { result.now ≡ self.now.journal }
    {
        self.journal.items()
    }

    /// Returns the state that the entries lead to.
    pub fn state(&self) -> &State
        ensures { result.now ≡ state_of self.now.script self.now.journal }
    {
        &self.state
    }

    /// Returns the bytes that the entries lead to.
    pub fn stores(&self) -> &PlainStores
        ensures { bytes_of result.now ≡ stores_of self.now.script self.now.journal }
    {
        &self.stores
    }

    /// Returns whether every command is answered, every job is done and there is no ghost. Until then some actor has an entry.
    pub fn over(&self) -> bool
        ensures complete { result ≡ is_complete self.now.script self.now.journal }
        ensures goes_on { (result ≡ false) ↔ SomeGoesOn self.now.script (state_of self.now.script self.now.journal) }
    {
        is_over(&self.script, &self.state)
    }

    /// Returns the entry that `who` makes next, or what it needs first.
    fn next_entry(&self, who: Actor) -> Result<Result<Entry, Need>, NoMemory>
        requires { length self.now.journal + 1 < 2 ^ 64 }
        ensures { IfOk result (λ step. step ≡ entry_of self.now who) }
    {
        match next(self.alloc, &self.script, &self.state, who)? {
            Ok(kind) => {
                let kind = self
                    .stores
                    .showing(self.alloc, &self.script, &self.state, who, kind)?;
                Ok(Ok(Entry { who, kind }))
            }
            Err(need) => Ok(Err(need)),
        }
    }

    /// Makes `entry`. Without memory it leaves the device as it was.
    fn make(&mut self, entry: Entry) -> Result<(), NoMemory>
        requires next { entry_of self.old entry.who ≡ Ok entry }
        requires short { length self.old.journal + 1 < 2 ^ 64 }
        ensures ok { OnOk result (self.new ≡ with_entry self.old entry) }
        ensures err { OnErr result (self.new ≡ self.old) }
    {
        let at = self.journal.len();
        self.journal.push(entry)?;
        let made = enact(
            self.alloc,
            &self.script,
            &mut self.state,
            &mut self.stores,
            self.journal.get(at),
        );
        if made.is_err() {
            self.journal.remove(at);
        }
        made
    }

    /// Takes a turn of `who`.
    ///
    /// # Errors
    ///
    /// Lack of memory; nothing is changed.
    pub fn step(&mut self, who: Actor) -> Result<Turn, NoMemory>
        ensures turn { IfOk result (λ t. t ≡ turn_of self.old who) }
        ensures made { OnOk result (self.new ≡ after_turn self.old who) }
        ensures err { OnErr result (self.new ≡ self.old) }
    {
        if self.over() {
            return Ok(Turn::Over);
        }
        if self.journal.len() == usize::MAX {
            return Err(NoMemory);
        }
        match self.next_entry(who)? {
            Ok(entry) => {
                self.make(entry)?;
                Ok(Turn::Made(self.journal.len() as u64))
            }
            Err(need) => Ok(Turn::Blocked(need)),
        }
    }

    /// Returns the actor whose turn it is where no schedule says so.
    ///
    /// # Errors
    ///
    /// Lack of memory.
    pub fn next_actor(&self) -> Result<Option<Actor>, NoMemory>
        ensures { IfOk result (λ found. found ≡ find (can_step self.now.script (state_of self.now.script self.now.journal)) (own_order self.now.script (state_of self.now.script self.now.journal))) }
    {
        if self.journal.len() == usize::MAX {
            return Err(NoMemory);
        }
        next_actor(self.alloc, &self.script, &self.state)
    }
}
