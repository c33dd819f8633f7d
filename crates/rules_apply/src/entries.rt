ghost use Rattle.std.specs.Prelude.{◌≡◌, OnOk, OnErr, false};
ghost use Rattle.journal_model.specs.rules.Apply as words;
ghost use Rattle.rules_apply.specs.Ready.{IsReady};
ghost use Rattle.rules_apply.specs.Sure.{takes_no_memory};

use crate::{commands, jobs, moves, pages, searches, tickets, victims};
use journal_model::{Entry, Kind, Script, State};
use rules_state::parts::actors::{engine_of, thread_of};
use std::alloc::Global;
use ttm_base::NoMemory;

/// Makes `state` the state after `entry`, which is legal next. Steps of pages and packets take no memory.
///
/// # Errors
///
/// Lack of memory; nothing is changed.
pub fn apply(
    state: &mut State,
    alloc: Global,
    script: &Script,
    entry: &Entry,
) -> Result<(), NoMemory>
    requires { IsReady script.now state.old entry.now }
    ensures ok { OnOk result (state.new ≡ words.applied script.now state.old entry.now.who entry.now.kind) }
    ensures err { OnErr result (state.new ≡ state.old) }
    ensures sure { OnErr result (takes_no_memory entry.now.kind ≡ false) }
{
    let thread = thread_of(entry.who);
    let ctx = engine_of(entry.who);
    match entry.kind {
        Kind::Ticket { s } => tickets::ticket(state, thread, s),
        Kind::Reserve { b } => return tickets::reserve(state, thread, b),
        Kind::Backoff { b, .. } => tickets::back_off(alloc, state, thread, b),
        Kind::New { b } => return commands::make(alloc, script, state, thread, b),
        Kind::Free { b, g } => return commands::free(alloc, state, thread, b, g),
        Kind::Take { b, mem, ref spans } => return pages::take(state, thread, b, mem, spans),
        Kind::Untake { b, mem } => pages::untake(state, b, mem),
        Kind::Populate { b, page, frame } | Kind::SwapIn { b, page, frame, .. } => {
            pages::give_frame(state, b, page, frame)
        }
        Kind::Depopulate { b } => pages::depopulate(state, b),
        Kind::Bind { b } => return pages::bind(alloc, script, state, b),
        Kind::Unbind { b } => return pages::unbind(alloc, script, state, b),
        Kind::Move { b, mem, num, left } => {
            return moves::move_buffer(alloc, script, state, b, mem, num, left);
        }
        Kind::Catch { b, why } => return victims::catch(alloc, state, thread, b, why),
        Kind::Loose { b } => return victims::loose(alloc, script, state, thread, b),
        Kind::Skip { b } => return victims::skip(state, thread, b),
        Kind::Dry { b, k, .. } => return searches::dry(alloc, script, state, thread, b, k),
        Kind::SwapOut { b, page, slot } => pages::swap_out(state, b, page, slot),
        Kind::NoPages { b } => victims::no_pages(state, thread, b),
        Kind::Arm { engine, num } => return jobs::arm(alloc, script, state, thread, engine, num),
        Kind::Packet { num, .. } => jobs::packet_run(state, ctx, num),
        Kind::Done { num } => jobs::done(state, ctx, num),
        Kind::Reap { g } => jobs::reap(state, g),
        Kind::Bulk { group } => return commands::bulk(alloc, script, state, thread, group),
        Kind::Result { .. } => return commands::answer(alloc, script, state, thread),
        Kind::Refused { .. } => tickets::refuse(alloc, state, thread),
    }
    Ok(())
}
