ghost use Rattle.std.specs.Prelude.{◌≡◌, ◌↔◌, ◌∷◌, [], false, IfNone, IfOk, IfSome, OnOk, OnErr, IsTrue};
ghost use Rattle.journal_model.specs.scripts.ScriptRules.{is_script};
ghost use Rattle.journal_model.specs.statements.Complete.{is_complete};
ghost use Rattle.journal_model.specs.rules.Legal.{IsLegal, made_of, state_of};
ghost use Rattle.journal_model.specs.statements.MarkLaws.{MapsAreRight};
ghost use Rattle.journal_model.specs.rules.Transparent.{IsTransparent};
ghost use Rattle.map_follow.specs.Follows.{KnowExactly};
ghost use Rattle.room_state.specs.turns.Turns.{step_of};
ghost use Rattle.laws.specs.law_sound.Sound.{SomeGoesOn};
ghost use Rattle.page_accounts.specs.Accounts.{AreAccountsOf};
ghost use Rattle.device_core.specs.Done.{done_of};
ghost use Rattle.device_core.specs.Mapped.{NamePlaces};
ghost use Rattle.device_core.specs.Kept.{entry_of, after_step, turn_of, after_turn, goes_on, left_in, next_actor, after_found};

use crate::follow::follow;
use cpu_maps::CpuMaps;
use journal_model::{Entry, Script};
use page_accounts::Accounts;
use room_accounts::accounts_of;
use room_device::{is_idle, turn};
use room_state::turns::{Rooms, Step};
use std::alloc::Global;
use std::marker::Model;
use ttm_base::{Actor, NoMemory, Turn};
use turn_order::TurnOrder;

/// A memory manager that runs a script, and the journal of what it did.
pub struct Device {
    alloc: Global,
    rooms: Rooms,
    maps: CpuMaps,
}

/// Written by hand, so that no crate above has to prove how each part is dropped.
impl Drop for Device {
    fn drop(self) {
        let Self {
            alloc: _,
            rooms: _,
            maps: _,
        } = self;
    }
}

impl Model for Device {
    ghost use Rattle.device_core.specs.Kept.{Kept};
    ghost use Rattle.device_core.specs.Mapped.{IsDevice};

    ghost Value = { Kept };

    ghost view = { λ d. d.rooms };

    ghost invariant = { λ d. IsDevice d.rooms d.maps };
}

/// Returns the actor that `order` asks next in the state of `rooms`, or `None` if all were asked.
fn asked_next(rooms: &Rooms, order: &mut TurnOrder) -> Option<Actor>
    ensures some { IfSome result (λ who. left_in rooms.now order.old ≡ who ∷ left_in rooms.now order.new) }
    ensures none { IfNone result (left_in rooms.now order.old ≡ []) }
{
    let script = rooms.script();
    let parts = rooms.parts();
    order.next(script, &parts.courses)
}

impl Device {
    /// Makes a device that hasn't begun.
    ///
    /// # Errors
    ///
    /// Lack of memory.
    pub fn new(alloc: Global, script: Script) -> Result<Device, NoMemory>
        requires { IsTrue (is_script script) }
        ensures { IfOk result (λ d. d ≡ record { script = script; journal = [] }) }
    {
        let maps = CpuMaps::new(alloc, &script)?;
        let rooms = Rooms::new(alloc, script)?;
        Ok(Device { alloc, rooms, maps })
    }

    /// Returns the script that is run.
    pub fn script(&self) -> &Script
        ensures { result.now ≡ self.now.script }
    {
        self.rooms.script()
    }

    /// Returns the entries so far, which are legal and transparent: each read and each probe shows the bytes of a memory in which no buffer ever
    /// moves.
    pub fn journal(&self) -> &[Entry]
        ensures journal { result.now ≡ self.now.journal }
        ensures legal { IsLegal self.now.script self.now.journal }
        ensures transparent { IsTransparent self.now.script self.now.journal }
    {
        self.rooms.journal()
    }

    /// Returns the parts, with what they tell of the state that the entries lead to.
    pub fn rooms(&self) -> &Rooms
        ensures { result.now ≡ self.now }
    {
        &self.rooms
    }

    /// Returns what the CPU's mappings of buffers know: of each page the entry that the journal gives the mapping that stands, and no other. Each
    /// entry names the place that the page has now.
    pub fn maps(&self) -> &CpuMaps
        ensures places { NamePlaces self.now result.now }
        ensures exact { KnowExactly self.now.script (made_of self.now.script self.now.journal) result.now }
    {
        &self.maps
    }

    /// Counts how the pages, frames and slots are held.
    pub fn accounts(&self) -> Accounts
        ensures { AreAccountsOf self.now.script (state_of self.now.script self.now.journal).core result }
    {
        let rooms = &self.rooms;
        accounts_of(rooms.parts(), rooms.script(), rooms.journal())
    }

    /// Returns whether every command is answered, every job is done and there is no ghost. Until then some actor has an entry.
    pub fn over(&self) -> bool
        ensures complete { result ≡ is_complete self.now.script self.now.journal }
        ensures goes_on { (result ≡ false) ↔ SomeGoesOn self.now.script (state_of self.now.script self.now.journal) }
    {
        self.rooms.over()
    }

    /// Returns the number of the last job of context `ctx` that is done, or 0.
    pub(crate) fn reached(&self, ctx: u32) -> u64
        ensures { result ≡ done_of self.now.journal ctx }
    {
        let timeline = self.rooms.line();
        if ctx < timeline.contexts() {
            timeline.reached(ctx)
        } else {
            0
        }
    }

    /// Makes the next entry of the actor `who`, if it has one, and lets the mappings follow it.
    fn turn(&mut self, who: Actor) -> Result<Step, NoMemory>
        ensures step { IfOk result (λ step. step ≡ step_of (entry_of self.old who)) }
        ensures made { OnOk result (self.new ≡ after_step self.old (entry_of self.old who)) }
        ensures err { OnErr result (self.new ≡ self.old) }
    {
        let step = turn(self.alloc, &mut self.rooms, who)?;
        if let Step::Made = step {
            follow(&mut self.maps, &self.rooms);
        }
        Ok(step)
    }

    /// Takes a turn of the actor `who`. After it each entry that a mapping has names the place that its page has then.
    ///
    /// # Errors
    ///
    /// `NoMemory` where memory is refused; nothing is changed.
    pub fn step(&mut self, who: Actor) -> Result<Turn, NoMemory>
        ensures turn { IfOk result (λ t. t ≡ turn_of self.old who) }
        ensures made { OnOk result (self.new ≡ after_turn self.old who) }
        ensures err { OnErr result (self.new ≡ self.old) }
        ensures places { MapsAreRight self.new.script self.new.journal }
    {
        if self.rooms.over() {
            return Ok(Turn::Over);
        }
        match self.turn(who)? {
            Step::Made => Ok(Turn::Made(self.rooms.journal().len() as u64)),
            Step::Need(need) => Ok(Turn::Blocked(need)),
        }
    }

    /// Makes the next entry of the actor `who`, and returns whether it has one.
    fn try_step(&mut self, who: Actor) -> Result<bool, NoMemory>
        ensures had { IfOk result (λ had. had ≡ goes_on self.old who) }
        ensures made { OnOk result (self.new ≡ after_step self.old (entry_of self.old who)) }
        ensures err { OnErr result (self.new ≡ self.old) }
    {
        if is_idle(&self.rooms, who) {
            return Ok(false);
        }
        match self.turn(who)? {
            Step::Made => Ok(true),
            Step::Need(_) => Ok(false),
        }
    }

    /// Returns the actor that `order` asks next, or `None` if all were asked.
    fn next_asked(&self, order: &mut TurnOrder) -> Option<Actor>
        ensures some { IfSome result (λ who. left_in self.now order.old ≡ who ∷ left_in self.now order.new) }
        ensures none { IfNone result (left_in self.now order.old ≡ []) }
    {
        asked_next(&self.rooms, order)
    }

    /// Takes a turn where no schedule says whose: the first actor in the simulator's own order that has an entry makes it. Returns that actor, or
    /// None where no actor has an entry.
    ///
    /// # Errors
    ///
    /// Lack of memory; nothing is changed.
    pub fn step_next(&mut self) -> Result<Option<Actor>, NoMemory>
        ensures found { IfOk result (λ found. found ≡ next_actor self.old) }
        ensures made { OnOk result (self.new ≡ after_found self.old (next_actor self.old)) }
        ensures err { OnErr result (self.new ≡ self.old) }
    {
        let mut order = TurnOrder::new();
        while let Some(who) = self.next_asked(&mut order) {
            let made = self.try_step(who)?;
            if made {
                return Ok(Some(who));
            }
        }
        Ok(None)
    }
}
