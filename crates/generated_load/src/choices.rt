ghost use Rattle.std.specs.Prelude.{◌≡◌, ◌<◌};
ghost use Rattle.generated_load.specs.Choices.{behind, kind_of, load_choice, own_buffer};

use crate::draws::Draws;
use ttm_base::BufId;

/// The kinds of commands that are drawn.
#[derive(Clone, Copy, PartialEq, Eq)]
pub enum ChoiceKind {
    Write,
    Read,
    Copy,
    Xor,
    /// A job that fills a range and shows it.
    Fill,
    Find,
    SwapOut,
    Touch,
}

/// The draws for a command of a thread: two of its buffers, an offset and a byte, and an engine.
#[derive(Clone, Copy, PartialEq, Eq)]
pub struct Choice {
    pub kind: ChoiceKind,
    pub x: BufId,
    pub y: BufId,
    pub off: u32,
    pub byte: u8,
    pub engine: u32,
}

fn kind_of(number: u32) -> ChoiceKind
    ensures { result ≡ kind_of number }
{
    match number {
        0 => ChoiceKind::Write,
        1 => ChoiceKind::Read,
        2 => ChoiceKind::Copy,
        3 => ChoiceKind::Xor,
        4 => ChoiceKind::Fill,
        5 => ChoiceKind::Find,
        6 => ChoiceKind::SwapOut,
        _ => ChoiceKind::Touch,
    }
}

/// Returns buffer `number` of `thread`: the threads' buffers stand in turn.
pub fn own_buffer(thread: u32, number: u32) -> BufId
    requires thread { thread < 3 }
    requires number { number < 8 }
    ensures { result ≡ own_buffer thread number }
{
    BufId(3 * number + thread)
}

/// Returns the buffer that stands `distance` + 1 places after buffer `number`, counted in a ring of eight.
fn behind(number: u32, distance: u32) -> u32
    requires number { number < 8 }
    requires distance { distance < 7 }
    ensures behind { result ≡ behind number distance }
    ensures below { result < 8 }
{
    (number + 1 + distance) % 8
}

/// Draws the numbers for a command.
pub fn choose(draws: &mut Draws, thread: u32) -> Choice
    requires { thread < 3 }
    ensures { (result, draws.new) ≡ load_choice thread draws.old }
{
    let number = draws.draw(8);
    let first = draws.draw(8);
    let distance = draws.draw(7);
    let sixteens = draws.draw(1024);
    let byte = draws.draw(256);
    let engine = draws.draw(2);
    Choice {
        kind: kind_of(number),
        x: own_buffer(thread, first),
        y: own_buffer(thread, behind(first, distance)),
        off: 16 * sixteens,
        byte: byte as u8,
        engine: engine + 1,
    }
}
