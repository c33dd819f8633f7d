ghost use Rattle.std.specs.Prelude.{◌≡◌};
ghost use Rattle.thread_program.specs.Launches.{launch_of};

use command_words::{Words, plain_number};
use script_words::words::is;

/// A request of the command line that the simulator doesn't serve.
#[derive(Clone, Copy, PartialEq, Eq)]
pub enum Launch {
    /// Run a script, one worker for each actor.
    Run,
    /// Draw a script from the number, and run it.
    Gen(u64),
}

/// Returns the request of the command line, or None where it is one for the simulator.
pub fn read_launch(words: &Words) -> Option<Launch>
    ensures { result ≡ launch_of words.now }
{
    match words.items() {
        [word] if is(word.items(), b"run") => Some(Launch::Run),
        [word, number] if is(word.items(), b"gen") => {
            plain_number(number.items()).map(Launch::Gen)
        }
        _ => None,
    }
}
