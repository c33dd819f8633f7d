ghost use Rattle.std.specs.Prelude.{◌≡◌, ◌≤◌, ◌++◌, ◌∷◌, OnOk, decimal, length};
ghost use Rattle.journal_model.specs.scripts.Words.{actor_word, hex, hex_byte, mem_word, name_of};

use crate::Line;
use journal_model::Script;
use ttm_base::{Actor, BufId, Mem, NoMemory};

/// Returns the declared name of a buffer.
pub fn name_of(script: &Script, b: BufId) -> &[u8]
    ensures { result.now ≡ name_of script.now b }
{
    match script.buffers.items().get(b.0 as usize) {
        Some(decl) => decl.name.items(),
        None => &[],
    }
}

pub fn mem_word(mem: Mem) -> &'static [u8]
    ensures { result.now ≡ mem_word mem }
{
    match mem {
        Mem::System => b"sys",
        Mem::Tt => b"tt",
        Mem::Vram => b"vram",
    }
}

pub fn put_actor(line: &mut Line, who: Actor) -> Result<(), NoMemory>
    ensures { OnOk result (line.new ≡ line.old ++ actor_word who) }
{
    match who {
        Actor::Thread(thread) => put_numbered(line, b't', u64::from(thread)),
        Actor::Engine(engine) => put_numbered(line, b'e', u64::from(engine)),
        Actor::Reaper => line.put(b"r"),
    }
}

/// Adds a letter and a number in decimal.
pub fn put_numbered(line: &mut Line, letter: u8, number: u64) -> Result<(), NoMemory>
    ensures { OnOk result (line.new ≡ line.old ++ letter ∷ decimal number) }
{
    line.put_numbered(letter, number)
}

/// The number of bytes whose digits are written together.
const FEW: usize = 32;

/// Adds the bytes, each as two hexadecimal digits.
pub fn put_hex(line: &mut Line, bytes: &[u8]) -> Result<(), NoMemory>
    ensures { OnOk result (line.new ≡ line.old ++ hex bytes.now) }
{
    if bytes.len() <= FEW {
        put_hex_few(line, bytes)
    } else {
        put_hex_many(line, bytes)
    }
}

/// Adds the digits of at most `FEW` bytes.
fn put_hex_few(line: &mut Line, bytes: &[u8]) -> Result<(), NoMemory>
    requires { length bytes.now ≤ 32 }
    ensures { OnOk result (line.new ≡ line.old ++ hex bytes.now) }
{
    let mut room = [0; 2 * FEW];
    let digits = &mut room[..2 * bytes.len()];
    hex::encode_to_slice(bytes, digits).unwrap();
    line.put(digits)
}

/// Adds the digits of any number of bytes.
fn put_hex_many(line: &mut Line, bytes: &[u8]) -> Result<(), NoMemory>
    ensures { OnOk result (line.new ≡ line.old ++ hex bytes.now) }
{
    for byte in bytes {
        put_hex_byte(line, *byte)?;
    }
    Ok(())
}

#[tactic(auto, using(crate::proofs::Digits::encode_lower_byte))]
pub fn put_hex_byte(line: &mut Line, byte: u8) -> Result<(), NoMemory>
    ensures { OnOk result (line.new ≡ line.old ++ hex_byte byte) }
{
    let mut digits = [0; 2];
    hex::encode_to_slice(&[byte], &mut digits).unwrap();
    line.put(&digits)
}
