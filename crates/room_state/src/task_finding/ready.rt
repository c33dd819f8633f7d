ghost use Rattle.std.specs.Prelude.{◌≡◌};
ghost use Rattle.journal_model.specs.rules.Ready as words;
ghost use Rattle.room_state.specs.task_finding.Seen.{seen, HasReservations};

use crate::task_finding::standing::live;
use bo_table::BoTable;
use journal_model::{Command, Script};
use state_words::{is_filled, is_in_place, named};
use ttm_base::BufId;

/// Returns whether buffer `b` is in place and filled.
fn is_ready(script: &Script, bos: &BoTable, command: &Command, b: BufId) -> bool
    requires { HasReservations bos.now }
    ensures { result ≡ words.is_ready script.now (seen bos.now) command.now b }
{
    let bo = live(bos, b);
    is_in_place(script, command, b, &bo) && is_filled(command, &bo)
}

/// Returns the first buffer named by `command` that isn't ready: the one at work.
pub(crate) fn unready(script: &Script, bos: &BoTable, command: &Command) -> Option<BufId>
    requires { HasReservations bos.now }
    ensures { result ≡ words.first_unready script.now (seen bos.now) command.now }
{
    named(command)
        .iter()
        .copied()
        .find(|b| !is_ready(script, bos, command, *b))
}
