ghost use Rattle.std.specs.Prelude.{◌≡◌, Some};
ghost use Rattle.journal_model.specs.rules.State.{reservation_changed};
ghost use Rattle.journal_model.specs.rules.ApplyCommands.{with_holder, released, pinned_more, pinned_less, with_pins};
ghost use Rattle.rules_state.specs.parts.Pins.{CanPin, HasPinsLeft};

use journal_model::{Command, Reservations};
use ttm_base::{BufId, Stamp};

/// Sets the holder of buffer `b` to `holder`, or to none.
pub fn set_holder(reservations: &mut Reservations, b: BufId, holder: Option<Stamp>)
    ensures { reservations.new ≡ reservation_changed (with_holder holder) reservations.old b }
{
    let index = b.0 as usize;
    if index < reservations.len() {
        let reservation = reservations.get_mut(index);
        reservation.holder = holder;
    }
}

/// Takes the holder from each of the buffers `bs`.
pub fn release_all(reservations: &mut Reservations, bs: &[BufId])
    ensures { reservations.new ≡ released reservations.old bs.now }
{
    for b in bs {
        set_holder(reservations, *b, None);
    }
}

/// Pins buffer `b` once more.
fn pin(reservations: &mut Reservations, b: BufId)
    requires { CanPin reservations.old b }
    ensures { reservations.new ≡ reservation_changed pinned_more reservations.old b }
{
    let index = b.0 as usize;
    if index < reservations.len() {
        let reservation = reservations.get_mut(index);
        reservation.pins += 1;
    }
}

/// Unpins buffer `b` once, if it is pinned.
fn unpin(reservations: &mut Reservations, b: BufId)
    ensures { reservations.new ≡ reservation_changed pinned_less reservations.old b }
{
    let index = b.0 as usize;
    if index < reservations.len() {
        let reservation = reservations.get_mut(index);
        reservation.pins = reservation.pins.saturating_sub(1);
    }
}

/// Changes the pins as `command` asks: any other than a pin or an unpin leaves them as they are.
pub fn change_pins(reservations: &mut Reservations, command: &Command)
    requires { HasPinsLeft reservations.old (Some command.now) }
    ensures { reservations.new ≡ with_pins (Some command.now) reservations.old }
{
    match command {
        Command::Pin { b } => pin(reservations, *b),
        Command::Unpin { b } => unpin(reservations, *b),
        _ => {}
    }
}
