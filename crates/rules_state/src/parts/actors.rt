ghost use Rattle.std.specs.Prelude.{◌≡◌};
ghost use Rattle.journal_model.specs.rules.Apply as words;

use ttm_base::Actor;

/// Returns the number of the thread that `who` is, or 0 if it is no thread.
pub fn thread_of(who: Actor) -> u32
    ensures { result ≡ words.thread_of who }
{
    match who {
        Actor::Thread(t) => t,
        Actor::Engine(_) | Actor::Reaper => 0,
    }
}

/// Returns the context of the engine that `who` is, or 0 if it is no engine.
pub fn engine_of(who: Actor) -> u32
    ensures { result ≡ words.engine_of who }
{
    match who {
        Actor::Engine(e) => e,
        Actor::Thread(_) | Actor::Reaper => 0,
    }
}
