ghost use Rattle.std.specs.Prelude.{◌≡◌};
ghost use Rattle.room_state.specs.Themes as words;

use journal_model::Kind;

/// The subject of an entry.
#[derive(Clone, Copy)]
pub(crate) enum Theme {
    /// A thread's ticket, and the named buffers that it holds.
    Lock,
    /// Pages that are looked for: targets, victims that are caught, places that are dry.
    Search,
    /// A buffer that goes to its target.
    Carry,
    /// Frames for a buffer.
    Fill,
    /// A buffer that gives its frames away, and a victim that is let go.
    Empty,
    /// What a command is for, and its answer.
    Act,
    /// What engines and the reaper do.
    Worker,
}

/// Returns the subject of an entry of `kind`.
pub(crate) fn theme_of(kind: &Kind) -> Theme
    ensures { result ≡ words.theme_of kind.now }
{
    match kind {
        Kind::Ticket { .. } | Kind::Reserve { .. } | Kind::Backoff { .. } => Theme::Lock,
        Kind::Take { .. } | Kind::Untake { .. } => Theme::Search,
        Kind::Catch { .. } | Kind::Dry { .. } => Theme::Search,
        Kind::Bind { .. } | Kind::Unbind { .. } | Kind::Move { .. } => Theme::Carry,
        Kind::Populate { .. } | Kind::SwapIn { .. } | Kind::NoPages { .. } => Theme::Fill,
        Kind::Depopulate { .. } | Kind::SwapOut { .. } => Theme::Empty,
        Kind::Loose { .. } | Kind::Skip { .. } => Theme::Empty,
        Kind::New { .. } | Kind::Free { .. } | Kind::Arm { .. } | Kind::Bulk { .. } => Theme::Act,
        Kind::Result { .. } | Kind::Refused { .. } => Theme::Act,
        Kind::Packet { .. } | Kind::Done { .. } | Kind::Reap { .. } => Theme::Worker,
    }
}
