ghost use Rattle.std.specs.Prelude.{◌≡◌, ◌++◌, ◌∷◌, ◌+◌, [], true, IfOk, OnOk, codes, decimal, flat_map, length, map};
ghost use Rattle.std.specs.List.{enumerate_from};
ghost use Rattle.journal_model.specs.scripts.MarkRules.{are_in_order};
ghost use Rattle.script_spelling.specs.Cursors.{ArePlaced, marks_from};
ghost use Rattle.journal_model.specs.scripts.Words.{actor_word, line};
ghost use Rattle.journal_model.specs.scripts.Spelling.{buffer_line, command_lines, group_word, spelling, thread_lines, turn_line};
ghost use Rattle.script_spelling.specs.Parts.{head_lines, shape_words, vram_line};
ghost use Rattle.text_line.specs.Spaced.{spaced_out};

use crate::marks::{put_marks, put_written, split_at_place};
use crate::places::put_placement;
use journal_model::{Command, Decl, Mark, Script};
use std::alloc::Global;
use text_line::{Line, put_actor};
use ttm_base::{Actor, NoMemory};

/// Returns the bytes of the spelling of `script`.
pub fn write_script(alloc: Global, script: &Script) -> Result<Vec<u8>, NoMemory>
    requires placed { ArePlaced script.now }
    ensures { IfOk result (λ bytes. bytes.items ≡ spelling script.now) }
{
    let mut text = Line::new(alloc);
    put_head(&mut text, script)?;
    put_buffers(&mut text, script)?;
    put_threads(&mut text, script)?;
    put_turns(&mut text, script)?;
    put_heading(&mut text, b"end")?;
    Ok(text.into_bytes())
}

/// Puts the lines above the buffers into `text`.
fn put_head(text: &mut Line, script: &Script) -> Result<(), NoMemory>
    ensures { OnOk result (text.new ≡ text.old ++ head_lines script.now) }
{
    put_count(text, b"ttm", script.version)?;
    put_vram(text, script)?;
    put_count(text, b"tt", script.sizes.tt)?;
    put_count(text, b"frames", script.sizes.frames)?;
    put_count(text, b"swap", script.sizes.swap)?;
    put_count(text, b"engines", script.sizes.engines)
}

/// Puts a line of `word` into `text`.
fn put_heading(text: &mut Line, word: &[u8]) -> Result<(), NoMemory>
    ensures { OnOk result (text.new ≡ text.old ++ line (word.now ∷ [])) }
{
    text.put(word)?;
    text.end_line()
}

/// Puts a line of `word` and `count` into `text`.
fn put_count(text: &mut Line, word: &[u8], count: u32) -> Result<(), NoMemory>
    ensures { OnOk result (text.new ≡ text.old ++ line (word.now ∷ decimal count ∷ [])) }
{
    text.put(word)?;
    text.number(u64::from(count))?;
    text.end_line()
}

fn put_vram(text: &mut Line, script: &Script) -> Result<(), NoMemory>
    ensures { OnOk result (text.new ≡ text.old ++ vram_line script.now) }
{
    text.put(b"vram")?;
    text.word(if script.sizes.buddy {
        b"buddy"
    } else {
        b"range"
    })?;
    text.number(u64::from(script.sizes.vram))?;
    text.end_line()
}

fn put_buffers(text: &mut Line, script: &Script) -> Result<(), NoMemory>
    ensures { OnOk result (text.new ≡ text.old ++ flat_map (buffer_line script.now.version) script.now.buffers) }
{
    for decl in script.buffers.items() {
        put_buffer(text, script.version, decl)?;
    }
    Ok(())
}

fn put_buffer(text: &mut Line, version: u32, decl: &Decl) -> Result<(), NoMemory>
    ensures { OnOk result (text.new ≡ text.old ++ buffer_line version decl.now) }
{
    text.put(b"buffer")?;
    put_shape(text, decl)?;
    put_placement(text, version, decl.placement.list.items())?;
    text.end_line()
}

/// Puts the words between `buffer` and the places into `text`.
fn put_shape(text: &mut Line, decl: &Decl) -> Result<(), NoMemory>
    ensures { OnOk result (text.new ≡ text.old ++ spaced_out (shape_words decl.now)) }
{
    text.word(decl.name.items())?;
    text.number(u64::from(decl.pages))?;
    text.word(b"prio")?;
    text.number(u64::from(decl.prio))?;
    text.word(b"group")?;
    put_group(text, decl.group)?;
    text.word(b"align")?;
    text.number(u64::from(decl.align))
}

fn put_group(text: &mut Line, group: Option<u32>) -> Result<(), NoMemory>
    ensures { OnOk result (text.new ≡ text.old ++ 32 ∷ group_word group) }
{
    match group {
        None => text.word(b"-"),
        Some(group) => text.number(u64::from(group)),
    }
}

fn put_threads(text: &mut Line, script: &Script) -> Result<(), NoMemory>
    requires placed { ArePlaced script.now }
    ensures { OnOk result (text.new ≡ text.old ++ flat_map (thread_lines script.now) (enumerate_from 1 script.now.threads)) }
{
    let threads = script.threads.items();
    let mut marks = script.marks.items();
    for i in 0..threads.len() {
        marks = put_thread(text, script, i + 1, threads[i].items(), marks)?;
    }
    Ok(())
}

/// Puts the lines of a thread into `text`. `marks` begin with the thread's. Returns the marks after them.
fn put_thread<'a>(
    text: &mut Line,
    script: &Script,
    thread: usize,
    commands: &[Command],
    marks: &'a [Mark],
) -> Result<&'a [Mark], NoMemory>
    requires order { are_in_order script.now.marks ≡ true }
    requires marks { marks.now ≡ marks_from script.now.marks thread 0 }
    ensures text { OnOk result (text.new ≡ text.old ++ thread_lines script.now (thread, commands.now)) }
    ensures behind { IfOk result (λ behind. behind.now ≡ marks_from script.now.marks thread (length commands.now + 1)) }
{
    put_heading(text, b"thread")?;
    put_commands(text, script, thread, commands, marks)
}

/// Puts the commands of a thread into `text`, each after the marks above it, and the marks after them. Returns the marks of the next
/// threads.
fn put_commands<'a>(
    text: &mut Line,
    script: &Script,
    thread: usize,
    commands: &[Command],
    marks: &'a [Mark],
) -> Result<&'a [Mark], NoMemory>
    requires order { are_in_order script.now.marks ≡ true }
    requires marks { marks.now ≡ marks_from script.now.marks thread 0 }
    ensures text { OnOk result (text.new ≡ text.old ++ command_lines script.now thread 0 commands.now) }
    ensures behind { IfOk result (λ behind. behind.now ≡ marks_from script.now.marks thread (length commands.now + 1)) }
{
    let mut rest = marks;
    for n in 0..commands.len() {
        let (here, behind) = split_at_place(script, rest, thread, n);
        put_marks(text, script, here)?;
        put_written(text, script, here, &commands[n])?;
        rest = behind;
    }
    let (here, behind) = split_at_place(script, rest, thread, commands.len());
    put_marks(text, script, here)?;
    Ok(behind)
}

fn put_turns(text: &mut Line, script: &Script) -> Result<(), NoMemory>
    ensures { OnOk result (text.new ≡ text.old ++ flat_map turn_line script.now.turns) }
{
    for turns in script.turns.items() {
        put_turn_line(text, turns.items())?;
    }
    Ok(())
}

fn put_turn_line(text: &mut Line, actors: &[Actor]) -> Result<(), NoMemory>
    ensures { OnOk result (text.new ≡ text.old ++ turn_line actors.now) }
{
    text.put(b"schedule")?;
    put_actors(text, actors)?;
    text.end_line()
}

/// Puts each actor into `text`, a space before it.
fn put_actors(text: &mut Line, actors: &[Actor]) -> Result<(), NoMemory>
    ensures { OnOk result (text.new ≡ text.old ++ spaced_out (map actor_word actors.now)) }
{
    for who in actors {
        text.put_byte(b' ')?;
        put_actor(text, *who)?;
    }
    Ok(())
}
