ghost use Rattle.std.specs.Prelude.{◌≡◌, OnOk, OnErr, IfOk};
ghost use Rattle.plain_device.specs.Kept.{entry_of, turn_of, after_turn};
ghost use Rattle.test_device.specs.Steps.{AreInStep};

use super::difference::Stop;
use journal_model::Entry;
use plain_device::Device;
use room_state::Rooms;
use rules_next::next;
use rules_search::has_room;
use script_text::read_script;
use std::alloc::Global;
use ttm_base::{Actor, Need, NoMemory, Turn};

/// A device by the definitions, and parts that are given its entries.
#[derive(Drop)]
pub struct Replay {
    alloc: Global,
    pub plain: Device,
    pub rooms: Rooms,
}

/// Returns the entry that `who` makes next on a plain device, or what it needs first.
fn next_entry(alloc: Global, plain: &Device, who: Actor) -> Result<Result<Entry, Need>, NoMemory>
    ensures { IfOk result (λ step. step ≡ entry_of plain.now who) }
{
    let script = plain.script();
    let state = plain.state();
    if !has_room(script, state) {
        return Err(NoMemory);
    }
    match next(alloc, script, state, who)? {
        Ok(kind) => {
            let kind = plain.stores().showing(alloc, script, state, who, kind)?;
            Ok(Ok(Entry { who, kind }))
        }
        Err(need) => Ok(Err(need)),
    }
}

impl Replay {
    /// Makes a device and parts that run the script of a text, which is read for each, and haven't begun.
    ///
    /// # Errors
    ///
    /// A text that is no script, and lack of memory.
    pub fn of(alloc: Global, text: &[u8]) -> Result<Replay, Stop>
        ensures { IfOk result (λ replay. AreInStep replay.plain replay.rooms) }
    {
        let plain = Device::new(alloc, read_script(alloc, text)?)?;
        let rooms = Rooms::new(alloc, read_script(alloc, text)?)?;
        Ok(Replay {
            alloc,
            plain,
            rooms,
        })
    }

    /// Gives the parts the entry that `who` makes next on the device, if it has one.
    fn give(&mut self, who: Actor) -> Result<(), NoMemory>
        requires { AreInStep self.old.plain self.old.rooms }
        ensures plain { self.new.plain ≡ self.old.plain }
        ensures given { OnOk result (AreInStep (after_turn self.old.plain who) self.new.rooms) }
        ensures err { OnErr result (self.new.rooms ≡ self.old.rooms) }
    {
        if self.plain.over() {
            return Ok(());
        }
        match next_entry(self.alloc, &self.plain, who) {
            Ok(Ok(entry)) => self.rooms.append(entry),
            Ok(Err(_)) => Ok(()),
            Err(NoMemory) => Err(NoMemory),
        }
    }

    /// Takes a turn of `who`, which the parts take too. Where memory was lacking both are asked once more.
    ///
    /// # Errors
    ///
    /// `NoMemory` if memory runs out.
    pub fn step(&mut self, who: Actor) -> Result<Turn, NoMemory>
        requires { AreInStep self.old.plain self.old.rooms }
        ensures { OnOk result (AreInStep self.new.plain self.new.rooms) }
    {
        if self.give(who).is_err() {
            self.give(who)?;
        }
        match self.plain.step(who) {
            Ok(turn) => Ok(turn),
            Err(NoMemory) => self.plain.step(who),
        }
    }

    /// Takes a turn in the simulator's order, which the parts follow. Where memory was lacking the device is asked once more. Returns the actor that has an entry, if some actor has one.
    ///
    /// # Errors
    ///
    /// `NoMemory` if memory runs out.
    pub fn step_next(&mut self) -> Result<Option<Actor>, NoMemory>
        requires { AreInStep self.old.plain self.old.rooms }
        ensures { OnOk result (AreInStep self.new.plain self.new.rooms) }
    {
        let found = match self.plain.next_actor() {
            Ok(found) => found,
            Err(NoMemory) => self.plain.next_actor()?,
        };
        if let Some(who) = found {
            self.step(who)?;
        }
        Ok(found)
    }
}
