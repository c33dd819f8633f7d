ghost use Rattle.std.specs.Prelude.{◌≡◌, IfOk};
ghost use Rattle.journal_model.specs.scripts.ScriptRules.{IsScript};
ghost use Rattle.generated_load.specs.Commands.{load_threads};
ghost use Rattle.generated_load.specs.Loads.{IsLoad, load_script};

use crate::buffers::draw_buffers;
use crate::commands::draw_commands;
use crate::draws::Draws;
use journal_model::{CommandLists, Marks, Script, Sizes, TurnLines};
use script_spelling::write_script;
use std::alloc::Global;
use ttm_base::NoMemory;

/// Returns the commands of all threads, drawn in their order.
fn draw_threads(alloc: Global, draws: &mut Draws) -> Result<CommandLists, NoMemory>
    ensures { IfOk result (λ threads. (threads, draws.new) ≡ load_threads 3 draws.old) }
{
    let mut threads = CommandLists::new(alloc);
    for thread in 0..3 {
        threads.push(draw_commands(alloc, draws, thread)?)?;
    }
    Ok(threads)
}

/// Draws a script: 24 buffers of 216 pages in all over 64 pages of VRAM, 192 frames and two user engines, and three threads of 216
/// commands.
#[tactic(auto, unfolding(crate::specs::Loads::load_script))]
fn draw_script(alloc: Global, number: u64) -> Result<Script, NoMemory>
    ensures { IfOk result (λ script. script ≡ load_script number) }
{
    let mut draws = Draws::new(number);
    let buffers = draw_buffers(alloc, &mut draws)?;
    let threads = draw_threads(alloc, &mut draws)?;
    Ok(Script {
        version: 1,
        sizes: Sizes {
            buddy: true,
            vram: 64,
            tt: 512,
            frames: 192,
            swap: 256,
            engines: 2,
        },
        buffers,
        threads,
        turns: TurnLines::new(alloc),
        marks: Marks::new(alloc),
    })
}

/// Returns the bytes of the script that is drawn from `number`.
///
/// # Errors
///
/// Lack of memory.
#[tactic(auto, using(crate::proofs::LoadLaws::is_load, crate::proofs::LoadLaws::spells))]
pub fn generated(alloc: Global, number: u64) -> Result<Vec<u8>, NoMemory>
    ensures text { IfOk result (λ text. IsScript text.items (load_script number)) }
    ensures load { IsLoad (load_script number) }
{
    let script = draw_script(alloc, number)?;
    let text = write_script(alloc, &script)?;
    Ok(text)
}
