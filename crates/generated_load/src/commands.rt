ghost use Rattle.std.specs.Prelude.{◌≡◌, ◌∷◌, ◌++◌, ◌<◌, [], IfOk, OnOk, replicate};
ghost use Rattle.generated_load.specs.Commands.{command_by, drawn_commands, load_command, load_commands, news, reads};
ghost use Rattle.generated_load.specs.declared.choices.ChoiceKind.TheVariants as kind;

use crate::choices::{Choice, ChoiceKind, choose, own_buffer};
use crate::draws::Draws;
use journal_model::{Bytes, Command, Commands, Ops};
use std::alloc::Global;
use ttm_base::{NoMemory, Op};

/// The number of bytes that a read, a write, a fill and an exclusive or take.
const LEN: u32 = 16;

/// The number of bytes that a copy takes: all of the smallest buffers.
const COPY_LEN: u32 = 16384;

/// Returns a list with `byte` sixteen times.
fn repeated(alloc: Global, byte: u8) -> Result<Bytes, NoMemory>
    ensures { IfOk result (λ bytes. bytes ≡ replicate 16 byte) }
{
    let mut bytes = Bytes::new(alloc);
    for _count in 0..LEN {
        bytes.push(byte)?;
    }
    Ok(bytes)
}

/// Returns a job of one operation on `engine`.
fn job(alloc: Global, engine: u32, op: Op) -> Result<Command, NoMemory>
    ensures { IfOk result (λ command. command ≡ Command.Submit engine (op ∷ [])) }
{
    let mut ops = Ops::new(alloc);
    ops.push(op)?;
    Ok(Command::Submit { engine, ops })
}

/// Returns a job of two operations on `engine`.
fn job_of_two(alloc: Global, engine: u32, first: Op, second: Op) -> Result<Command, NoMemory>
    ensures { IfOk result (λ command. command ≡ Command.Submit engine (first ∷ second ∷ [])) }
{
    let mut ops = Ops::new(alloc);
    ops.push(first)?;
    ops.push(second)?;
    Ok(Command::Submit { engine, ops })
}

fn copy(alloc: Global, choice: Choice) -> Result<Command, NoMemory>
    ensures { IfOk result (λ command. command ≡ command_by kind.Copy 0 choice) }
{
    job(
        alloc,
        choice.engine,
        Op::Copy {
            dst: choice.x,
            doff: 0,
            src: choice.y,
            soff: 0,
            len: COPY_LEN,
        },
    )
}

fn xor(alloc: Global, choice: Choice) -> Result<Command, NoMemory>
    ensures { IfOk result (λ command. command ≡ command_by kind.Xor 0 choice) }
{
    job(
        alloc,
        choice.engine,
        Op::Xor {
            dst: choice.x,
            doff: choice.off,
            src: choice.y,
            soff: choice.off,
            len: LEN,
        },
    )
}

fn fill_and_probe(alloc: Global, choice: Choice) -> Result<Command, NoMemory>
    ensures { IfOk result (λ command. command ≡ command_by kind.Fill 0 choice) }
{
    job_of_two(
        alloc,
        choice.engine,
        Op::Fill {
            dst: choice.x,
            off: choice.off,
            len: LEN,
            byte: choice.byte,
        },
        Op::Probe {
            src: choice.x,
            off: choice.off,
            len: LEN,
        },
    )
}

/// Returns the command of a choice. A thread touches the group of its own buffers.
fn command_of(alloc: Global, choice: Choice, thread: u32) -> Result<Command, NoMemory>
    ensures { IfOk result (λ command. command ≡ load_command thread choice) }
{
    match choice.kind {
        ChoiceKind::Write => Ok(Command::Write {
            b: choice.x,
            off: choice.off,
            bytes: repeated(alloc, choice.byte)?,
        }),
        ChoiceKind::Read => Ok(Command::Read {
            b: choice.x,
            off: choice.off,
            len: LEN,
        }),
        ChoiceKind::Copy => copy(alloc, choice),
        ChoiceKind::Xor => xor(alloc, choice),
        ChoiceKind::Fill => fill_and_probe(alloc, choice),
        ChoiceKind::Find => Ok(Command::Find { b: choice.x }),
        ChoiceKind::SwapOut => Ok(Command::SwapOut { b: choice.x }),
        ChoiceKind::Touch => Ok(Command::Touch { group: thread }),
    }
}

/// Appends a command for each buffer of `thread` that makes it.
fn add_news(commands: &mut Commands, thread: u32) -> Result<(), NoMemory>
    requires { thread < 3 }
    ensures { OnOk result (commands.new ≡ commands.old ++ news 8 thread) }
{
    for number in 0..8 {
        commands.push(Command::New {
            b: own_buffer(thread, number),
        })?;
    }
    Ok(())
}

/// Draws two hundred commands of `thread`, and appends them.
fn draw_more(
    alloc: Global,
    draws: &mut Draws,
    commands: &mut Commands,
    thread: u32,
) -> Result<(), NoMemory>
    requires { thread < 3 }
    ensures commands { OnOk result (commands.new ≡ commands.old ++ (drawn_commands 200 thread draws.old).0) }
    ensures draws { OnOk result (draws.new ≡ (drawn_commands 200 thread draws.old).1) }
{
    for _count in 0..200u32 {
        let choice = choose(draws, thread);
        commands.push(command_of(alloc, choice, thread)?)?;
    }
    Ok(())
}

/// Appends a command for each buffer of `thread` that reads its first bytes.
fn add_reads(commands: &mut Commands, thread: u32) -> Result<(), NoMemory>
    requires { thread < 3 }
    ensures { OnOk result (commands.new ≡ commands.old ++ reads 8 thread) }
{
    for number in 0..8 {
        commands.push(Command::Read {
            b: own_buffer(thread, number),
            off: 0,
            len: LEN,
        })?;
    }
    Ok(())
}

/// Returns the commands of `thread`, counted from 0: they make its buffers, then do what is drawn, and then read the first bytes of each buffer.
pub fn draw_commands(alloc: Global, draws: &mut Draws, thread: u32) -> Result<Commands, NoMemory>
    requires { thread < 3 }
    ensures { IfOk result (λ commands. (commands, draws.new) ≡ load_commands thread draws.old) }
{
    let mut commands = Commands::new(alloc);
    add_news(&mut commands, thread)?;
    draw_more(alloc, draws, &mut commands, thread)?;
    add_reads(&mut commands, thread)?;
    Ok(commands)
}
