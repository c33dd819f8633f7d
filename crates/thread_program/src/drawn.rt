ghost use Rattle.std.specs.Prelude.{◌≡◌, IfOk};
ghost use Rattle.generated_load.specs.Loads.{IsLoad, load_script};

use generated_load::generated;
use journal_model::Script;
use script_text::{ScriptFault, read_script};
use std::alloc::Global;
use ttm_base::NoMemory;

/// Draws a text from `number`, and returns the script that is read from it.
#[tactic(auto, using(crate::proofs::DrawnLaws::read_is))]
pub(crate) fn read_drawn(alloc: Global, number: u64) -> Result<Script, NoMemory>
    ensures script { IfOk result (λ script. script ≡ load_script number) }
    ensures load { IsLoad (load_script number) }
{
    let text = generated(alloc, number)?;
    match read_script(alloc, text.as_slice()) {
        Ok(script) => Ok(script),
        Err(ScriptFault::NoMemory) => Err(NoMemory),
        Err(ScriptFault::Bad { .. }) => unreachable!(),
    }
}
