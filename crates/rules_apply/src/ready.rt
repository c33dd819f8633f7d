ghost use Rattle.std.specs.Prelude.{◌≡◌, ◌+◌, ◌<◌, ◌^◌, ◌↔◌, IsTrue, Some, option_copied, length};
ghost use Rattle.journal_model.specs.rules.State as words;
ghost use Rattle.rules_apply.specs.Ready as facts;
ghost use Rattle.rules_state.specs.parts.Pins.{CanPin, HasPinsLeft};

use journal_model::{Command, Entry, Kind, Reservation, Script, State};
use rules_state::parts::actors::{engine_of, thread_of};
use rules_state::{command_at_work, course_of, live_in, reservation_in};
use ttm_base::limits::MAX_PINS;
use ttm_base::{BufId, JobId};

/// Returns whether there is a thread numbered `thread`.
fn has_thread(state: &State, thread: u32) -> bool
    ensures { IsTrue result ↔ facts.IsThread state.now thread }
{
    course_of(state, thread).is_some()
}

/// Returns whether the thread numbered `thread` may answer one more command.
fn can_answer(state: &State, thread: u32) -> bool
    ensures { IsTrue result ↔ facts.CanAnswer state.now thread }
{
    match course_of(state, thread) {
        Some(course) => course.answered < u32::MAX,
        None => false,
    }
}

/// Returns whether `command` pins no buffer that is pinned as often as can be counted.
fn has_pins_left(reservations: &[Reservation], command: Option<&Command>) -> bool
    ensures { IsTrue result ↔ HasPinsLeft reservations.now (option_copied command.entry) }
{
    match command {
        Some(Command::Pin { b }) => reservation_in(reservations, *b).pins < MAX_PINS,
        _ => true,
    }
}

/// Returns whether the thread numbered `thread` may answer the command that it is at.
fn can_show_result(script: &Script, state: &State, thread: u32) -> bool
    ensures { IsTrue result ↔ facts.CanShowResult script.now state.now thread }
{
    can_answer(state, thread)
        && has_pins_left(
            state.reservations.items(),
            command_at_work(script, state, thread),
        )
}

/// Returns whether the search may go on after its `k`-th place.
fn can_go_dry(state: &State, thread: u32, k: u32) -> bool
    ensures { IsTrue result ↔ facts.CanGoDry state.now thread k }
{
    has_thread(state, thread) && k < u32::MAX
}

/// Returns whether the pages of buffer `b` can be counted.
fn has_short_table(state: &State, b: BufId) -> bool
    ensures { IsTrue result ↔ facts.HasShortTable state.now b }
{
    match live_in(state.core.buffers.items(), b) {
        Some(buffer) => buffer.table.len() <= u32::MAX as usize,
        None => true,
    }
}

/// Returns whether `entry` can be applied in `state`. Each entry that is legal next can be.
pub fn is_ready(script: &Script, state: &State, entry: &Entry) -> bool
    ensures { IsTrue result ↔ facts.IsReady script.now state.now entry.now }
{
    let thread = thread_of(entry.who);
    match &entry.kind {
        Kind::Ticket { .. } | Kind::Reserve { .. } | Kind::Backoff { .. } | Kind::New { .. } => {
            has_thread(state, thread)
        }
        Kind::Free { .. } | Kind::Take { .. } | Kind::Catch { .. } | Kind::Loose { .. } => {
            has_thread(state, thread)
        }
        Kind::Skip { .. } | Kind::NoPages { .. } | Kind::Arm { .. } | Kind::Bulk { .. } => {
            has_thread(state, thread)
        }
        Kind::Dry { k, .. } => can_go_dry(state, thread, *k),
        Kind::Packet { num, .. } => {
            let id = JobId {
                ctx: engine_of(entry.who),
                num: *num,
            };
            state.core.jobs.can_count(id)
        }
        Kind::Result { .. } => can_show_result(script, state, thread),
        Kind::Refused { .. } => can_answer(state, thread),
        Kind::Move { b, .. } => has_short_table(state, *b),
        Kind::Untake { .. } | Kind::Populate { .. } | Kind::SwapIn { .. } | Kind::SwapOut { .. } =>
            { true }
        Kind::Depopulate { .. } | Kind::Bind { .. } | Kind::Unbind { .. } => true,
        Kind::Done { .. } | Kind::Reap { .. } => true,
    }
}
