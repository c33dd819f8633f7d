ghost use Rattle.std.specs.Prelude.{◌≡◌, IfOk, OnErr};
ghost use Rattle.program_edges.specs.Edges.{Edge};
ghost use Rattle.simulator.specs.Inputs.{Gave, Says};

use io_edge::{ReadFault, Source, read_all};
use journal_model::Script;
use script_text::{ScriptFault, read_script};
use std::alloc::Global;
use ttm_base::NoMemory;
use ttm_base::limits::MAX_SCRIPT_BYTES;

/// The result of reading a source.
#[derive(Drop)]
pub enum Input {
    Read(Script),
    /// A broken script: the first broken line, and on it the least broken rule.
    Bad { line: u32, rule: u32 },
    /// A read failed.
    Failed,
}

fn parsed(alloc: Global, bytes: &[u8]) -> Result<Input, NoMemory>
    ensures { IfOk result (Says bytes.now) }
{
    match read_script(alloc, bytes) {
        Ok(script) => Ok(Input::Read(script)),
        Err(ScriptFault::Bad { line, rule }) => Ok(Input::Bad { line, rule }),
        Err(ScriptFault::NoMemory) => Err(NoMemory),
    }
}

/// Reads all bytes of `source`, at most one more than a script can have, and the script in them.
pub fn read_input<S: Source>(alloc: Global, source: &mut S) -> Result<Input, NoMemory>
    ensures gave { IfOk result (Gave (record { before = S.left source.old; after = S.left source.new; faults_before = S.faults source.old; faults_after = S.faults source.new })) }
    ensures faults { OnErr result (S.faults source.new ≡ S.faults source.old) }
{
    match read_all(alloc, source, MAX_SCRIPT_BYTES) {
        Ok(bytes) => parsed(alloc, bytes.as_slice()),
        Err(ReadFault::TooLong) => Ok(Input::Bad { line: 0, rule: 1 }),
        Err(ReadFault::Failed) => Ok(Input::Failed),
        Err(ReadFault::NoMemory) => Err(NoMemory),
    }
}
