//! A journal is replayed over plain lists, entry by entry.

ghost use Rattle.std.specs.Prelude.{IfOk, IfSome, IsTrue, option_copied, take};
ghost use Rattle.journal_model.specs.scripts.ScriptRules.{is_script};
ghost use Rattle.rules_holds.specs.Free.{AreFree};
ghost use Rattle.rules_search.specs.Room.{HasRoom};
ghost use Rattle.plain_device.specs.Held.{IsHeld};
ghost use Rattle.rules_stores.specs.Kept.{bytes_of};
ghost use Rattle.report_check.specs.Judged.{Differs, IsJudged, Judges};

use crate::kept::{free_after, free_before};
use crate::same::{same_kind, same_step};
use entry_reader::Rule;
use journal_model::{Entry, Kind, Script, State};
use plain_device::enact::enact;
use rules_apply::first_state;
use rules_holds::FreeSets;
use rules_next::next_with;
use rules_next::turns::is_over;
use rules_stores::PlainStores;
use std::alloc::Global;
use ttm_base::NoMemory;

/// What a journal is.
#[derive(Clone, Copy)]
pub enum Verdict {
    /// The journal is legal and complete.
    Valid,
    /// The journal is legal, and not complete.
    Incomplete,
    /// The journal isn't legal: `entry` is the first that isn't legal next, counted from 1, and `rule` the one that it breaks:
    /// `Rule::Step`, or `Rule::Shown` where it is legal next but for what it shows.
    Bad { entry: u64, rule: Rule },
}

/// Returns the rule that the entry `told` breaks where its actor makes `made`, or `None` if it breaks none.
fn rule_between(made: &Kind, told: &Kind) -> Option<Rule>
    ensures { Differs made.now told.now result }
{
    if same_kind(made, told) {
        None
    } else if same_step(made, told) {
        Some(Rule::Shown)
    } else {
        Some(Rule::Step)
    }
}

/// Returns the rule that `entry` breaks in `state`, or `None` if it is legal next.
fn broken_rule(
    alloc: Global,
    script: &Script,
    state: &State,
    free: Option<&FreeSets>,
    stores: &PlainStores,
    entry: &Entry,
) -> Result<Option<Rule>, NoMemory>
    requires room { HasRoom script.now state.now }
    requires free { IfSome (option_copied free) (AreFree script.now state.now.core) }
    ensures { IfOk result (IsJudged script.now (record { state = state.now; stores = bytes_of stores.now }) entry.now) }
{
    match next_with(alloc, script, state, free, entry.who)? {
        Ok(kind) => {
            let made = stores.showing(alloc, script, state, entry.who, kind)?;
            Ok(rule_between(&made, &entry.kind))
        }
        Err(_) => Ok(Some(Rule::Step)),
    }
}

/// Judges `journal`, where `state` and `stores` are those before its first entry, by making its entries until one isn't legal next.
fn judged(
    alloc: Global,
    script: &Script,
    journal: &[Entry],
    state: &mut State,
    stores: &mut PlainStores,
) -> Result<Verdict, NoMemory>
    requires { IsHeld script.now (take 0 journal.now) state.old stores.old.sizes (bytes_of stores.old) }
    ensures { IfOk result (Judges script.now journal.now) }
{
    let mut kept = None;
    for (at, entry) in journal.iter().enumerate() {
        let free = free_before(alloc, script, state, kept, entry)?;
        if let Some(rule) = broken_rule(alloc, script, state, free.as_ref(), stores, entry)? {
            let entry = at as u64 + 1;
            return Ok(Verdict::Bad { entry, rule });
        }
        kept = free_after(state, free, entry);
        enact(alloc, script, state, stores, entry)?;
    }
    if is_over(script, state) {
        Ok(Verdict::Valid)
    } else {
        Ok(Verdict::Incomplete)
    }
}

/// Judges whether `journal` is a legal and complete one of `script`, by making its entries until one isn't legal next. An entry costs
/// what the rules over plain lists cost.
///
/// # Errors
///
/// Fails only where memory runs out.
pub fn check(alloc: Global, script: &Script, journal: &[Entry]) -> Result<Verdict, NoMemory>
    requires { IsTrue (is_script script.now) }
    ensures { IfOk result (Judges script.now journal.now) }
{
    let mut state = first_state(alloc, script)?;
    let mut stores = PlainStores::new(alloc, script.sizes)?;
    judged(alloc, script, journal, &mut state, &mut stores)
}
