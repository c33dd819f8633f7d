ghost use Rattle.std.specs.Prelude.{◌≡◌, OnOk, OnErr, true, false};
ghost use Rattle.journal_model.specs.rules.Apply as words;
ghost use Rattle.journal_model.specs.rules.Stores.{stores_after};
ghost use Rattle.rules_apply.specs.Ready.{IsReady};
ghost use Rattle.rules_stores.specs.Kept.{BecomesBytes, bytes_of};
ghost use Rattle.rules_stores.specs.Writes.{CanStore};
ghost use Rattle.plain_device.specs.Held.{is_result};

use journal_model::{Entry, Kind, Script, State};
use rules_apply::apply;
use rules_state::command_at_work;
use rules_state::parts::actors::thread_of;
use rules_stores::{PlainStores, put_write};
use std::alloc::Global;
use ttm_base::NoMemory;

/// Makes the state and the bytes those after `entry`, a result. It moves no buffer, so the bytes of a write are put once it stands.
fn enact_result(
    alloc: Global,
    script: &Script,
    state: &mut State,
    stores: &mut PlainStores,
    entry: &Entry,
) -> Result<(), NoMemory>
    requires result { is_result entry.now.kind ≡ true }
    requires ready { IsReady script.now state.old entry.now }
    requires short { CanStore script.now state.old entry.now.who entry.now.kind }
    ensures state { OnOk result (state.new ≡ words.apply script.now state.old entry.now) }
    ensures bytes { OnOk result (BecomesBytes stores.old stores.new (stores_after script.now state.old entry.now.who entry.now.kind (bytes_of stores.old))) }
    ensures err { OnErr result ((state.new ≡ state.old) × (stores.new ≡ stores.old)) }
{
    let command = command_at_work(script, state, thread_of(entry.who));
    apply(state, alloc, script, entry)?;
    if let Some(command) = command {
        put_write(stores, state, command);
    }
    Ok(())
}

/// Makes the state and the bytes those after `entry`, which isn't a result. Where it changes bytes it takes no memory, so they are changed
/// first, by the state before it.
fn enact_step(
    alloc: Global,
    script: &Script,
    state: &mut State,
    stores: &mut PlainStores,
    entry: &Entry,
) -> Result<(), NoMemory>
    requires step { is_result entry.now.kind ≡ false }
    requires ready { IsReady script.now state.old entry.now }
    ensures state { OnOk result (state.new ≡ words.apply script.now state.old entry.now) }
    ensures bytes { OnOk result (BecomesBytes stores.old stores.new (stores_after script.now state.old entry.now.who entry.now.kind (bytes_of stores.old))) }
    ensures err { OnErr result ((state.new ≡ state.old) × BecomesBytes stores.old stores.new (bytes_of stores.old)) }
{
    stores.after(script, state, entry);
    apply(state, alloc, script, entry)
}

/// Makes the state and the bytes those after `entry`.
///
/// # Errors
///
/// Lack of memory: the state stays, and so do the bytes.
pub fn enact(
    alloc: Global,
    script: &Script,
    state: &mut State,
    stores: &mut PlainStores,
    entry: &Entry,
) -> Result<(), NoMemory>
    requires ready { IsReady script.now state.old entry.now }
    requires short { CanStore script.now state.old entry.now.who entry.now.kind }
    ensures state { OnOk result (state.new ≡ words.apply script.now state.old entry.now) }
    ensures bytes { OnOk result (BecomesBytes stores.old stores.new (stores_after script.now state.old entry.now.who entry.now.kind (bytes_of stores.old))) }
    ensures err { OnErr result ((state.new ≡ state.old) × BecomesBytes stores.old stores.new (bytes_of stores.old)) }
{
    match &entry.kind {
        Kind::Result { .. } => enact_result(alloc, script, state, stores, entry),
        _ => enact_step(alloc, script, state, stores, entry),
    }
}
