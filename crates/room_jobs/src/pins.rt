ghost use Rattle.std.specs.Prelude.{◌≡◌, ◌<◌, Some};
ghost use Rattle.ttm_base.specs.declared.BufId.{BufId as Id};
ghost use Rattle.journal_model.specs.declared.script.Command.TheVariants as command_of;
ghost use Rattle.journal_model.specs.rules.State.{reservation_in};
ghost use Rattle.journal_model.specs.rules.ApplyCommands.{with_pins};

use bo_table::BoTable;
use journal_model::Command;

/// Changes the pins of the buffer of `command` as the command asks (ttm_bo_pin, ttm_bo_unpin).
pub(crate) fn change_pins(bos: &mut BoTable, command: &Command)
    requires { (b : Id) → command.now ≡ command_of.Pin b → (reservation_in bos.old.reservations b).pins < 255 }
    ensures { bos.new ≡ record bos.old { reservations = with_pins (Some command.now) bos.old.reservations } }
{
    match command {
        Command::Pin { b } => bos.pin(*b),
        Command::Unpin { b } => bos.unpin(*b),
        _ => {}
    }
}
