ghost use Rattle.std.specs.Prelude.{◌≡◌, option_copied};
ghost use Rattle.journal_model.specs.rules.ApplyCommands as rows;
ghost use Rattle.journal_model.specs.rules.ApplyJobs as jobs;
ghost use Rattle.journal_model.specs.rules.Commands as words;

use journal_model::{Command, Script, same_buffer};
use std::slice::from_ref;
use ttm_base::{BufId, FlaggedPlace, Mem, Op, Place};

/// Returns the size of a buffer in pages, as it is declared.
pub fn declared_pages(script: &Script, b: BufId) -> u32
    ensures { result ≡ (words.decl script.now b).pages }
{
    match script.buffers.items().get(b.0 as usize) {
        Some(decl) => decl.pages,
        None => 0,
    }
}

/// Returns the priority of a buffer, from 0, which is evicted first, to 3.
pub fn declared_prio(script: &Script, b: BufId) -> u32
    ensures { result ≡ (words.decl script.now b).prio }
{
    match script.buffers.items().get(b.0 as usize) {
        Some(decl) => decl.prio,
        None => 0,
    }
}

/// Returns the group with which a buffer is moved in bulk, if it has one.
pub fn declared_group(script: &Script, b: BufId) -> Option<u32>
    ensures { result ≡ (words.decl script.now b).group }
{
    match script.buffers.items().get(b.0 as usize) {
        Some(decl) => decl.group,
        None => None,
    }
}

/// Returns the alignment of a buffer in pages.
pub fn declared_align(script: &Script, b: BufId) -> u32
    ensures { result ≡ (words.decl script.now b).align }
{
    match script.buffers.items().get(b.0 as usize) {
        Some(decl) => decl.align,
        None => 1,
    }
}

/// Returns the places of a buffer, or none if it isn't declared.
pub fn declared_places(script: &Script, b: BufId) -> &[FlaggedPlace]
    ensures { result.now ≡ (words.decl script.now b).placement.list }
{
    match script.buffers.items().get(b.0 as usize) {
        Some(decl) => decl.placement.list.items(),
        None => &[],
    }
}

/// Returns the commands of a thread. Threads are numbered from 1.
pub fn commands_of(script: &Script, thread: u32) -> &[Command]
    ensures { result.now ≡ words.commands_of script.now thread }
{
    if thread == 0 {
        return &[];
    }
    match script.threads.items().get(thread as usize - 1) {
        Some(commands) => commands.items(),
        None => &[],
    }
}

/// Returns whether the operation writes the buffer `b`.
pub fn writes(b: BufId, op: &Op) -> bool
    ensures { result ≡ words.writes b op.now }
{
    match op {
        Op::Fill { dst, .. } | Op::Copy { dst, .. } | Op::Xor { dst, .. } => same_buffer(b, *dst),
        Op::Probe { .. } => false,
    }
}

/// Lends the buffers that a command names, each once, in the order of the first mention. Takes constant time.
pub fn named(command: &Command) -> &[BufId]
    ensures { result.now ≡ words.named command.now }
{
    match command {
        Command::New { b } | Command::Free { b } | Command::Pin { b } | Command::Unpin { b } => {
            from_ref(b)
        }
        Command::Find { b } | Command::SwapOut { b } => from_ref(b),
        Command::Write { b, .. } | Command::Read { b, .. } | Command::Move { b, .. } => from_ref(b),
        Command::Touch { .. } => &[],
        Command::Submit { ops, .. } => ops.named(),
    }
}

/// Lends the buffers that `command` names, or none where there is no command.
pub fn named_in(command: Option<&Command>) -> &[BufId]
    ensures { result.now ≡ rows.named_in (option_copied command.entry) }
{
    match command {
        Some(command) => named(command),
        None => &[],
    }
}

/// Returns the operations of `command` if it is a job, else none.
pub fn ops_of(command: Option<&Command>) -> &[Op]
    ensures { result.now ≡ jobs.ops_of (option_copied command.entry) }
{
    match command {
        Some(Command::Submit { ops, .. }) => ops.items(),
        _ => &[],
    }
}

/// Returns the place that is all of a memory type.
pub fn whole(mem: Mem) -> Place
    ensures { result ≡ words.whole mem }
{
    Place {
        mem,
        first: 0,
        last: 0,
        topdown: false,
        contig: false,
    }
}

/// Returns a place without flags.
pub fn unflagged(place: Place) -> FlaggedPlace
    ensures { result ≡ words.unflagged place }
{
    FlaggedPlace {
        place,
        desired: false,
        fallback: false,
    }
}

/// Returns a place that is tried under pressure only.
pub fn as_fallback(place: Place) -> FlaggedPlace
    ensures { result ≡ words.as_fallback place }
{
    FlaggedPlace {
        place,
        desired: false,
        fallback: true,
    }
}
