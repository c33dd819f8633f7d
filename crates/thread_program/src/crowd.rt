ghost use Rattle.std.specs.Prelude.{◌≡◌, IfOk, IsTrue, true};
ghost use Rattle.journal_model.specs.scripts.ScriptRules.{is_script};
ghost use Rattle.thread_program.specs.Ran.{IsThreaded};

use crate::actors::actors_of;
use journal_model::Script;
use simulator::Device;
use std::alloc::Global;
use std::sync::Wait;
use std::thread::Threads;
use ttm_base::NoMemory;
use turn_lock::Turns;
use worker_pool::{Gate, work_all};

/// Runs `script` on threads, with one worker for each actor and the caller as the last, until its journal is complete. A schedule in the script
/// isn't used.
///
/// # Errors
///
/// Lack of memory.
pub fn run_threads<R: Threads + Wait + Sync, G: Gate + Sync>(
    rt: &R,
    alloc: Global,
    script: Script,
    gate: &G,
) -> Result<Device, NoMemory>
    requires { IsTrue (is_script script) }
    ensures { IfOk result (IsThreaded script) }
{
    let actors = actors_of(alloc, &script)?;
    let contexts = script.sizes.engines + 1;
    let device = Device::new(alloc, script)?;
    let (turns, pass) = Turns::new(alloc, device, contexts)?;
    let (answer, pass) = work_all(rt, alloc, &turns, pass, gate, actors.items());
    let device = turns.close(rt, pass);
    let _legal = device.journal();
    match answer {
        Ok(()) => Ok(device),
        Err(NoMemory) => Err(NoMemory),
    }
}
