ghost use Rattle.std.specs.Prelude.{◌≡◌, ◌+◌, [], OnOk, OnErr, IfOk, false, flat_map, slice_get};
ghost use Rattle.journal_model.specs.statements.Complete.{is_complete};
ghost use Rattle.journal_model.specs.statements.Scheduled.{scheduled, scheduled_actors};
ghost use Rattle.sim_drive.specs.Ends.{EndsAfter, HasTaken};

use device_core::Device;
use journal_model::TurnLine;
use std::alloc::Global;
use ttm_base::{Actor, ItemList, NoMemory, Turn};

/// Returns the actors of all schedule lines, in order.
fn actors_of(alloc: Global, lines: &[TurnLine]) -> Result<ItemList<Actor>, NoMemory>
    ensures { IfOk result (λ actors. actors ≡ flat_map (λ l. l) lines.now) }
{
    let mut actors = ItemList::new(alloc);
    for line in lines {
        actors.extend(line.items())?;
    }
    Ok(actors)
}

/// Runs `device`, which hasn't begun, until its journal is complete, for at most `allowed` turns, and returns how many it took.
///
/// # Errors
///
/// Lack of memory; then fewer turns were taken.
pub fn drive(alloc: Global, device: &mut Device, allowed: u64) -> Result<u64, NoMemory>
    requires { device.old.journal ≡ [] }
    ensures turns { IfOk result (λ n. EndsAfter device.old.script allowed n) }
    ensures journal { IfOk result (λ n. device.new ≡ record { script = device.old.script; journal = scheduled device.old.script n }) }
    ensures refused { OnErr result (HasTaken device.old.script allowed device.new) }
{
    let _legal = device.rooms().journal();
    let schedule = actors_of(alloc, device.script().turns.items())?;
    let mut turns = 0;
    for who in schedule.items() {
        if turns == allowed {
            return Ok(turns);
        }
        if let Turn::Over = device.step(*who)? {
            return Ok(turns);
        }
        turns += 1;
    }
    while turns < allowed && device.step_next()?.is_some() {
        turns += 1;
    }
    Ok(turns)
}
