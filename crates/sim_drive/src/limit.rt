//! The number of turns after which a run is over.

ghost use Rattle.std.specs.Prelude.{◌≡◌, min, sum_by};
ghost use Rattle.journal_model.specs.statements.Scheduled.{packets_in, turn_limit as limit_of};

use journal_model::{Command, Script};
use op_cutting::packet_count;

/// Returns into how many packets the operations of `command` are cut. Saturates at `u64::MAX`.
fn packets_of_command(command: &Command) -> u64
    ensures { result ≡ min (packets_in command.now) 18446744073709551615 }
{
    let mut n = 0u64;
    if let Command::Submit { ops, .. } = command {
        for op in ops.items() {
            n = n.saturating_add(u64::from(packet_count(op)));
        }
    }
    n
}

/// Returns into how many packets the operations of `commands` are cut. Saturates at `u64::MAX`.
fn packets_of_commands(commands: &[Command]) -> u64
    ensures { result ≡ min (sum_by packets_in commands.now) 18446744073709551615 }
{
    let mut n = 0u64;
    for command in commands {
        n = n.saturating_add(packets_of_command(command));
    }
    n
}

/// Returns after how many turns a run without a limit of its own is over. Saturates at `u64::MAX`.
pub fn turn_limit(script: &Script) -> u64
    ensures { result ≡ min (limit_of script.now) 18446744073709551615 }
{
    let mut scheduled = 0u64;
    for line in script.turns.items() {
        scheduled = scheduled.saturating_add(line.len() as u64);
    }
    let mut commands = 0u64;
    let mut packets = 0u64;
    for thread in script.threads.items() {
        commands = commands.saturating_add(thread.len() as u64);
        packets = packets.saturating_add(packets_of_commands(thread.items()));
    }
    let mut pages = 0u64;
    for buffer in script.buffers.items() {
        pages = pages.saturating_add(u64::from(buffer.pages));
    }
    let work = 134_217_728u64
        .saturating_mul(commands.saturating_add(17))
        .saturating_mul(pages.saturating_add(17));
    scheduled.saturating_add(work).saturating_add(packets)
}
