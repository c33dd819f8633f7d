ghost use Rattle.std.specs.Prelude.{◌≡◌};
ghost use Rattle.journal_model.specs.rules.Ready as words;

use crate::commands::declared_places;
use crate::placement::size_of;
use crate::standing::Standing;
use journal_model::{Command, Script};
use place_list::spans::same_mem;
use ttm_base::{BufId, Mem};

/// Returns whether the buffer `standing` has a target in some memory type.
pub fn has_some_target<S: Standing>(standing: &S) -> bool
    ensures { result ≡ words.has_some_target (S.body standing.now) }
{
    standing.has_target(Mem::System)
        || standing.has_target(Mem::Tt)
        || standing.has_target(Mem::Vram)
}

/// Returns whether buffer `b`, which is `standing`, stands where its declared placement lets it.
fn is_well_placed<S: Standing>(script: &Script, b: BufId, standing: &S) -> bool
    ensures { result ≡ words.is_well_placed script.now b (S.body standing.now) }
{
    standing.is_accepted(declared_places(script, b), size_of(script, standing.mem()))
}

/// Returns whether buffer `b`, which is `standing`, stands where `command` wants it.
fn meets<S: Standing>(script: &Script, command: &Command, b: BufId, standing: &S) -> bool
    ensures { result ≡ words.meets script.now command.now b (S.body standing.now) }
{
    match command {
        Command::Submit { .. } | Command::Find { .. } => is_well_placed(script, b, standing),
        Command::Move { mem, .. } => same_mem(standing.mem(), *mem),
        Command::SwapOut { .. } => same_mem(standing.mem(), Mem::System),
        _ => true,
    }
}

/// Returns whether buffer `b`, which is `standing`, has no target and stands where `command` wants it.
pub fn is_in_place<S: Standing>(script: &Script, command: &Command, b: BufId, standing: &S) -> bool
    ensures { result ≡ words.is_in_place script.now command.now b (S.body standing.now) }
{
    !has_some_target(standing) && meets(script, command, b, standing)
}

/// Returns whether `command` reads or writes the bytes of its buffers.
fn uses_bytes(command: &Command) -> bool
    ensures { result ≡ words.uses_bytes command.now }
{
    matches!(
        command,
        Command::Submit { .. } | Command::Write { .. } | Command::Read { .. }
    )
}

/// Returns whether each page of the buffer `standing` that `command` may use has a frame, where the buffer stands in SYSTEM.
pub fn is_filled<S: Standing>(command: &Command, standing: &S) -> bool
    ensures { result ≡ words.is_filled command.now (S.body standing.now) }
{
    !uses_bytes(command) || !same_mem(standing.mem(), Mem::System) || standing.has_all_frames()
}
