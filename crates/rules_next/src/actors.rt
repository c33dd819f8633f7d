ghost use Rattle.std.specs.Prelude.{◌≡◌, ◌+◌, ◌<◌, ◌^◌, ◌==◌, ◌&&◌, [], IfOk, IfSome, Ok, find, not, option_copied};
ghost use Rattle.journal_model.specs.declared.script.Command.TheVariants as command;
ghost use Rattle.journal_model.specs.declared.entry.Kind.TheVariants as kind;
ghost use Rattle.journal_model.specs.declared.entry.Shown.TheVariants as shown;
ghost use Rattle.journal_model.specs.rules.State.{buffer};
ghost use Rattle.journal_model.specs.rules.Waits.{waited_for, jobs_before_read};
ghost use Rattle.journal_model.specs.rules.PageSteps.{unless_waiting};
ghost use Rattle.journal_model.specs.rules.Next as words;
ghost use Rattle.rules_holds.specs.Free.{AreFree};
ghost use Rattle.rules_search.specs.Room.{HasRoom};

use crate::tasks::task_of_command;
use journal_model::{Bytes, Command, Course, Job, Kind, Script, Shown, State, Task};
use rules_holds::{FreeSets, is_idle, waited_before_read, waited_for};
use rules_search::{
    Step, Swap, next_ghost, next_job, once_idle, step_of_empty, step_of_fill, step_of_give_back,
    step_of_move, step_of_place_search, swap_out,
};
use rules_state::{
    buffer_in, command_at_work, course_of, dead_buffer, is_live, place_search_for, reservation_in,
};
use state_words::unless_waiting;
use std::alloc::Global;
use ttm_base::{Actor, BufId, Deny, Need, NoMemory, Stamp};

/// Returns the entry that draws the next stamp.
fn next_ticket(state: &State) -> Kind
    requires { state.now.last_stamp + 1 < 2 ^ 64 }
    ensures { result ≡ words.next_ticket state.now }
{
    Kind::Ticket {
        s: Stamp(state.last_stamp + 1),
    }
}

/// Returns the first step of `command`.
fn step_of_start(state: &State, command: &Command) -> Step
    requires { state.now.last_stamp + 1 < 2 ^ 64 }
    ensures { result ≡ words.step_of_start state.now command.now }
{
    match command {
        Command::New { b } if is_live(state, *b) => Ok(Kind::Refused { deny: Deny::Exists }),
        Command::New { b } => Ok(Kind::New { b: *b }),
        Command::Touch { group } => Ok(Kind::Bulk { group: *group }),
        _ => Ok(next_ticket(state)),
    }
}

/// Returns whether a thread backs off from `holder`: a younger thread that holds a buffer backs off from an older one's; any other waits
/// (wait-die).
fn backs_off(course: &Course, holder: Stamp) -> bool
    ensures { result ≡ words.backs_off course.now holder }
{
    match course.stamp {
        None => false,
        Some(mine) => holder.0 < mine.0 && course.held.len() > 0,
    }
}

/// Reserves buffer `b` if nobody holds it. Else the thread backs off from `holder` or waits for it.
fn step_of_holder(course: &Course, b: BufId, holder: Option<Stamp>) -> Step
    ensures { result ≡ words.step_of_holder course.now b holder }
{
    match holder {
        None => Ok(Kind::Reserve { b }),
        Some(s) if backs_off(course, s) => Ok(Kind::Backoff { b, s }),
        Some(s) => Err(Need::Holder(s)),
    }
}

/// Reserves buffer `b` if it is live, else refuses the command.
fn step_of_lock(state: &State, course: &Course, b: BufId) -> Step
    ensures { result ≡ words.step_of_lock state.now course.now b }
{
    if is_live(state, b) {
        step_of_holder(
            course,
            b,
            reservation_in(state.reservations.items(), b).holder,
        )
    } else {
        Ok(Kind::Refused {
            deny: Deny::NoBuffer,
        })
    }
}

/// Returns a result that shows nothing.
fn plain() -> Step
    ensures { result ≡ words.plain }
{
    Ok(Kind::Result {
        shown: Shown::Plain,
    })
}

/// Frees buffer `b`. One with unfinished jobs leaves a ghost.
fn step_of_free(alloc: Global, script: &Script, state: &State, b: BufId) -> Step
    requires { HasRoom script.now state.now }
    ensures { result ≡ words.step_of_act script.now state.now (command.Free b) }
{
    let dead = dead_buffer(alloc);
    let g = if is_idle(&state.core, buffer_in(&state.core, b, &dead)) {
        0
    } else {
        next_ghost(state)
    };
    Ok(Kind::Free { b, g })
}

/// Swaps out a page of buffer `b`, or answers the command.
fn step_of_swap(
    alloc: Global,
    script: &Script,
    state: &State,
    free: Option<&FreeSets>,
    b: BufId,
) -> Result<Step, NoMemory>
    requires room { HasRoom script.now state.now }
    requires free { IfSome (option_copied free) (AreFree script.now state.now.core) }
    ensures { IfOk result (λ step. step ≡ words.step_of_act script.now state.now (command.SwapOut b)) }
{
    match swap_out(alloc, script, state, free, b)? {
        Swap::NoFrame => Ok(plain()),
        Swap::NoSlot => Ok(Ok(Kind::Refused { deny: Deny::NoSwap })),
        Swap::Page(step) => Ok(step),
    }
}

/// Reads the bytes of buffer `b`, which its store fills in, once the jobs that change it are done.
fn step_of_read(alloc: Global, state: &State, b: BufId) -> Step
    ensures { result ≡ unless_waiting (waited_for state.now.core (jobs_before_read (buffer state.now b))) (kind.Result (shown.Read [])) }
{
    let dead = dead_buffer(alloc);
    let job = waited_before_read(&state.core, buffer_in(&state.core, b, &dead));
    let shown = Shown::Read(Bytes::new(alloc));
    unless_waiting(job, Kind::Result { shown })
}

/// Shows where buffer `b` stands.
fn step_of_find(alloc: Global, state: &State, b: BufId) -> Result<Step, NoMemory>
    ensures { IfOk result (λ step. step ≡ Ok (kind.Result (shown.Find (buffer state.now b).mem (buffer state.now b).spans))) }
{
    let dead = dead_buffer(alloc);
    let buffer = buffer_in(&state.core, b, &dead);
    let spans = buffer.spans.copy()?;
    let shown = Shown::Find {
        mem: buffer.mem,
        spans,
    };
    Ok(Ok(Kind::Result { shown }))
}

/// Returns the step of `command` itself, once all is held, in place and filled.
fn step_of_act(
    alloc: Global,
    script: &Script,
    state: &State,
    free: Option<&FreeSets>,
    command: &Command,
) -> Result<Step, NoMemory>
    requires room { HasRoom script.now state.now }
    requires free { IfSome (option_copied free) (AreFree script.now state.now.core) }
    ensures { IfOk result (λ step. step ≡ words.step_of_act script.now state.now command.now) }
{
    match command {
        Command::Submit { engine, .. } => Ok(Ok(Kind::Arm {
            engine: *engine,
            num: next_job(state, *engine),
        })),
        Command::Free { b } => Ok(step_of_free(alloc, script, state, *b)),
        Command::SwapOut { b } => step_of_swap(alloc, script, state, free, *b),
        Command::Write { b, .. } => {
            let shown = Shown::Plain;
            Ok(once_idle(alloc, &state.core, *b, Kind::Result { shown }))
        }
        Command::Read { b, .. } => Ok(step_of_read(alloc, state, *b)),
        Command::Find { b } => step_of_find(alloc, state, *b),
        _ => Ok(plain()),
    }
}

/// Returns the step of `task`.
fn step_of_task(
    alloc: Global,
    script: &Script,
    state: &State,
    free: Option<&FreeSets>,
    course: &Course,
    command: &Command,
    task: Task,
) -> Result<Step, NoMemory>
    requires room { HasRoom script.now state.now }
    requires free { IfSome (option_copied free) (AreFree script.now state.now.core) }
    ensures { IfOk result (λ step. step ≡ words.step_of_task script.now state.now course.now command.now task) }
{
    match task {
        Task::Idle => Ok(Err(Need::NoCommand)),
        Task::Answer => Ok(plain()),
        Task::Start => Ok(step_of_start(state, command)),
        Task::Lock(b) => Ok(step_of_lock(state, course, b)),
        Task::Search { b, aim } => {
            let place_search = place_search_for(alloc, script, command, course, b, aim)?;
            step_of_place_search(alloc, script, state, course, b, &place_search)
        }
        Task::Bind(b) => Ok(Ok(Kind::Bind { b })),
        Task::Unbind(b) => Ok(once_idle(alloc, &state.core, b, Kind::Unbind { b })),
        Task::Move { b, mem } => Ok(step_of_move(script, state, course, b, mem)),
        Task::Fill(b) => step_of_fill(alloc, script, state, free, b),
        Task::Empty(b) => step_of_empty(alloc, script, state, free, course, b),
        Task::GiveBack(b) => Ok(step_of_give_back(alloc, state, b)),
        Task::Skip(b) => Ok(Ok(Kind::Skip { b })),
        Task::GiveUp(deny) | Task::Refuse(deny) => Ok(Ok(Kind::Refused { deny })),
        Task::Act => step_of_act(alloc, script, state, free, command),
    }
}

/// Returns the step of the thread numbered `thread`.
fn step_of_thread(
    alloc: Global,
    script: &Script,
    state: &State,
    free: Option<&FreeSets>,
    thread: u32,
) -> Result<Step, NoMemory>
    requires room { HasRoom script.now state.now }
    requires free { IfSome (option_copied free) (AreFree script.now state.now.core) }
    ensures { IfOk result (λ step. step ≡ words.step_of_thread script.now state.now thread) }
{
    match (
        course_of(state, thread),
        command_at_work(script, state, thread),
    ) {
        (Some(course), Some(command)) => {
            let task = task_of_command(alloc, script, state, course, command);
            step_of_task(alloc, script, state, free, course, command, task)
        }
        _ => Ok(Err(Need::NoCommand)),
    }
}

/// Returns the first of `jobs` that is of the context `ctx` and isn't done.
fn first_unfinished(jobs: &[Job], ctx: u32) -> Option<&Job>
    ensures { option_copied result ≡ find (λ j. (j.id.ctx == ctx) && not j.finished) jobs.now }
{
    jobs.iter().find(|j| j.id.ctx == ctx && !j.finished)
}

/// Returns the job at the head of the context `ctx`, its first that isn't done, or `None` if all are.
pub fn head_of(state: &State, ctx: u32) -> Option<&Job>
    ensures { option_copied result ≡ words.head_of state.now ctx }
{
    first_unfinished(state.core.jobs.pending(), ctx)
}

/// Returns the next step of `job`: its next packet once all that it waits for is done, and after the last packet its end.
fn step_of_job(alloc: Global, state: &State, job: &Job) -> Step
    ensures { result ≡ words.step_of_job state.now job.now }
{
    let num = job.id.num;
    if (job.ran as usize) < job.packets.len() {
        let need = waited_for(&state.core, &job.waits);
        unless_waiting(
            need,
            Kind::Packet {
                num,
                k: job.ran,
                piece: Bytes::new(alloc),
            },
        )
    } else {
        Ok(Kind::Done { num })
    }
}

/// Returns the step of the engine of the context `ctx`, which works on the job at the head of its context.
fn step_of_engine(alloc: Global, state: &State, ctx: u32) -> Step
    ensures { result ≡ words.step_of_engine state.now ctx }
{
    match head_of(state, ctx) {
        None => Err(Need::NoJob),
        Some(job) => step_of_job(alloc, state, job),
    }
}

/// Returns the step of the reaper: the first ghost goes once its jobs are done.
fn step_of_reaper(state: &State) -> Step
    ensures { result ≡ words.step_of_reaper state.now }
{
    match state.core.ghosts.items().first() {
        None => Err(Need::NoGhost),
        Some(g) => unless_waiting(waited_for(&state.core, &g.jobs), Kind::Reap { g: g.num }),
    }
}

/// Returns the entry that `who` makes next, or what it needs first. The bytes that a read or a probe shows are left empty. `free` is what
/// is free in `state`; without it, a step that takes a frame or a swap slot finds that anew.
///
/// # Errors
///
/// Lack of memory; nothing is changed.
pub fn next_with(
    alloc: Global,
    script: &Script,
    state: &State,
    free: Option<&FreeSets>,
    who: Actor,
) -> Result<Step, NoMemory>
    requires room { HasRoom script.now state.now }
    requires free { IfSome (option_copied free) (AreFree script.now state.now.core) }
    ensures { IfOk result (λ step. step ≡ words.next script.now state.now who) }
{
    match who {
        Actor::Thread(thread) => step_of_thread(alloc, script, state, free, thread),
        Actor::Engine(engine) => Ok(step_of_engine(alloc, state, engine)),
        Actor::Reaper => Ok(step_of_reaper(state)),
    }
}

/// Returns the entry that `who` makes next, or what it needs first. A step that takes a frame or a swap slot finds what is free.
///
/// # Errors
///
/// Lack of memory; nothing is changed.
pub fn next(alloc: Global, script: &Script, state: &State, who: Actor) -> Result<Step, NoMemory>
    requires { HasRoom script.now state.now }
    ensures { IfOk result (λ step. step ≡ words.next script.now state.now who) }
{
    next_with(alloc, script, state, None, who)
}
