ghost use Rattle.std.specs.Prelude.{◌≡◌, min, length, sum_by, count_by};
ghost use Rattle.plain_memory.specs.Along as words;

use journal_model::{Entry, Kind, Script};

/// Returns whether an entry of `kind` answers a command, by a result or by a refusal.
pub fn is_answer(kind: &Kind) -> bool
    ensures { result ≡ words.is_answer kind.now }
{
    matches!(kind, Kind::Result { .. } | Kind::Refused { .. })
}

/// Returns how many commands `journal` answers, by a result or by a refusal.
pub fn answers(journal: &[Entry]) -> u64
    ensures { result ≡ count_by (λ e. words.is_answer e.kind) journal.now }
{
    journal.iter().filter(|e| is_answer(&e.kind)).count() as u64
}

/// Returns how many commands all threads have. Saturates at `u64::MAX`.
pub fn command_count(script: &Script) -> u64
    ensures { result ≡ min (sum_by length script.now.threads) 18446744073709551615 }
{
    let mut n = 0u64;
    for commands in script.threads.items() {
        n = n.saturating_add(commands.len() as u64);
    }
    n
}
