ghost use Rattle.std.specs.Prelude.{◌≡◌, ℕ, ◌+◌, ◌<◌, ◌≤◌, ◌^◌, IsTrue, IfOk, OnOk, length, replicate, slice_index, option_copied, if◌then◌else◌};
ghost use Rattle.journal_model.specs.rules.Apply as actors;
ghost use Rattle.journal_model.specs.rules.PlainMemory.{memory_after_result};
ghost use Rattle.journal_model.specs.scripts.ScriptRules.{is_script};
ghost use Rattle.journal_model.specs.rules.Transparent.{bytes_owed, IsTransparent};
ghost use Rattle.plain_memory.specs.Along as words;
ghost use Rattle.plain_memory.specs.Fits.{CommandFits};
ghost use Rattle.plain_memory.specs.Kept.{BecomesMemory, memory_in, sizes_in};
ghost use Rattle.plain_memory.specs.Mismatches as counted;

use crate::counts::is_answer;
use crate::memory::PlainMemory;
use journal_model::{Command, Entry, Kind, Numbers, Script, Shown};
use rules_state::parts::actors::thread_of;
use rules_state::{commands_of, ops_of};
use std::alloc::Global;
use ttm_base::NoMemory;

/// Returns the command that `thread` is at, or None where none is left; `answered` has how many commands of each thread are answered.
fn command_by<'a>(script: &'a Script, answered: &Numbers, thread: u32) -> Option<&'a Command>
    ensures { option_copied result ≡ words.command_by script.now answered.now thread }
{
    let at = match answered.items().get(thread as usize) {
        Some(n) => *n,
        None => 0,
    };
    commands_of(script, thread).get(at as usize)
}

/// Returns whether a result shows the bytes that its command has to show: a read those of the memory, and any other command none.
fn shows(memory: &PlainMemory, command: Option<&Command>, shown: &Shown) -> bool
    requires { CommandFits (sizes_in memory.now) (option_copied command) }
    ensures { result ≡ counted.shows shown.now (bytes_owed (option_copied command.entry) (memory_in memory.now)) }
{
    match command {
        Some(Command::Read { b, off, len }) => match shown {
            Shown::Read(bytes) => bytes.items() == memory.range(*b, *off, *len),
            _ => false,
        },
        _ => match shown {
            Shown::Read(_) => false,
            _ => true,
        },
    }
}

/// Returns whether an entry is a result that shows other bytes than it has to.
fn is_mismatch(memory: &PlainMemory, command: Option<&Command>, kind: &Kind) -> bool
    requires { CommandFits (sizes_in memory.now) (option_copied command) }
    ensures { result ≡ counted.is_mismatch (option_copied command.entry) (memory_in memory.now) kind.now }
{
    match kind {
        Kind::Result { shown } => !shows(memory, command, shown),
        _ => false,
    }
}

/// Writes the bytes of the command that is answered, if it is a write.
fn answer(memory: &mut PlainMemory, command: Option<&Command>)
    requires { CommandFits (sizes_in memory.old) (option_copied command) }
    ensures { BecomesMemory memory.old memory.new (memory_after_result (option_copied command.entry) (memory_in memory.old)) }
{
    if let Some(Command::Write { b, off, bytes }) = command {
        memory.write(*b, *off, bytes.items());
    }
}

/// Brings the memory to its state after an entry of a thread at `command`.
fn put_entry(
    alloc: Global,
    memory: &mut PlainMemory,
    command: Option<&Command>,
    kind: &Kind,
) -> Result<(), NoMemory>
    requires { CommandFits (sizes_in memory.old) (option_copied command) }
    ensures { OnOk result (BecomesMemory memory.old memory.new (words.memory_after (option_copied command.entry) kind.now (memory_in memory.old))) }
{
    match kind {
        Kind::New { b } | Kind::Free { b, .. } => {
            memory.clear(*b);
            Ok(())
        }
        Kind::Arm { .. } => memory.apply_all(alloc, ops_of(command)),
        Kind::Result { .. } => {
            answer(memory, command);
            Ok(())
        }
        _ => Ok(()),
    }
}

/// Counts the answer of `thread`, if the entry is one.
fn count_answer(answered: &mut Numbers, thread: u32, kind: &Kind)
    requires { slice_index answered.old thread + 1 < 2 ^ 64 }
    ensures { answered.new ≡ words.counts_after thread kind.now answered.old }
{
    let index = thread as usize;
    if is_answer(kind) && index < answered.len() {
        let n = answered.at(index);
        answered.set(index, n + 1);
    }
}

/// Goes past `entry`, and returns whether it is a mismatch.
fn pass(
    alloc: Global,
    script: &Script,
    memory: &mut PlainMemory,
    answered: &mut Numbers,
    entry: &Entry,
) -> Result<bool, NoMemory>
    requires fits { CommandFits (sizes_in memory.old) (words.command_by script.now answered.old (actors.thread_of entry.now.who)) }
    requires few { slice_index answered.old (actors.thread_of entry.now.who) + 1 < 2 ^ 64 }
    ensures mismatch { IfOk result (λ found. found ≡ counted.is_mismatch (words.command_by script.now answered.old (actors.thread_of entry.now.who)) (memory_in memory.old) entry.now.kind) }
    ensures memory { OnOk result (BecomesMemory memory.old memory.new (words.memory_after (words.command_by script.now answered.old (actors.thread_of entry.now.who)) entry.now.kind (memory_in memory.old))) }
    ensures answered { OnOk result (answered.new ≡ words.counts_after (actors.thread_of entry.now.who) entry.now.kind answered.old) }
{
    let thread = thread_of(entry.who);
    let command = command_by(script, answered, thread);
    let found = is_mismatch(memory, command, &entry.kind);
    put_entry(alloc, memory, command, &entry.kind)?;
    count_answer(answered, thread, &entry.kind);
    Ok(found)
}

/// Returns the number of mismatches with one more entry, which is a mismatch if `found` says so.
fn count_with(count: u64, found: bool) -> u64
    requires { count + 1 < 2 ^ 64 }
    ensures value { result ≡ count + (if found then 1 else 0) }
    ensures most { result ≤ count + 1 }
{
    if found { count + 1 } else { count }
}

/// Returns a count of zero answers for each of `threads` threads, and for thread 0, which doesn't exist.
#[tactic(auto, using(crate::proofs::AlongLaws::replicate_push))]
fn no_answers(alloc: Global, threads: usize) -> Result<Numbers, NoMemory>
    ensures { IfOk result (λ answered. answered ≡ replicate (threads + 1) 0) }
{
    let mut answered = Numbers::new(alloc);
    answered.push(0)?;
    for _thread in 0..threads {
        answered.push(0)?;
    }
    Ok(answered)
}

/// Returns how many results of `journal` show other bytes than the plain memory has. Takes time linear in the journal and the bytes that its entries
/// touch. The buffers of the script take their whole size in memory.
pub fn mismatches(alloc: Global, script: &Script, journal: &[Entry]) -> Result<u64, NoMemory>
    requires { IsTrue (is_script script.now) }
    ensures counted { IfOk result (λ n. n ≡ counted.mismatches_of script.now journal.now) }
    ensures transparent { IfOk result (λ n. IsTransparent script.now journal.now → n ≡ 0) }
{
    let mut memory = PlainMemory::new(alloc, script)?;
    let mut answered = no_answers(alloc, script.threads.len())?;
    let mut count = 0;
    for entry in journal {
        let found = pass(alloc, script, &mut memory, &mut answered, entry)?;
        count = count_with(count, found);
    }
    Ok(count)
}
