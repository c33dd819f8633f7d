ghost use Rattle.std.specs.Prelude.{◌≡◌, ℕ, List, ◌+◌, ◌^◌, ◌-◌, ◌<◌, ◌≤◌, [], length, take, IfOk, IfErr, IfSome, IsTrue, OnOk, OnErr};
ghost use Rattle.std.specs.Option.{option_map};
ghost use Rattle.std.specs.Io.KnownBytes.{append_known, prepend_known};
ghost use Rattle.io_edge.specs.Faults.{faults_after};
ghost use Rattle.io_edge.specs.Lines.{is_line};
ghost use Rattle.io_edge.specs.ReadFault.{TookBefore, faults_after_all};
ghost use Rattle.io_edge.specs.Written.{Writes};

use crate::{Failed, Sink, Source};
use std::alloc::{AllocError, Global};

/// The reason why not all bytes were read: the source failed, it has too many bytes, or there is no memory for them.
#[derive(Clone, Copy, Debug, PartialEq, Eq)]
pub enum ReadFault {
    Failed,
    TooLong,
    NoMemory,
}

impl From<Failed> for ReadFault {
    ghost use Rattle.io_edge.specs.declared.whole.ReadFault.TheVariants as read_fault;

    ghost from_gives = { λ _ e. e ≡ read_fault.Failed };

    fn from(_: Failed) -> ReadFault {
        ReadFault::Failed
    }
}

impl From<AllocError> for ReadFault {
    ghost use Rattle.io_edge.specs.declared.whole.ReadFault.TheVariants as read_fault;

    ghost from_gives = { λ _ e. e ≡ read_fault.NoMemory };

    fn from(_: AllocError) -> ReadFault {
        ReadFault::NoMemory
    }
}

/// The number of bytes for which one read asks.
const PIECE: usize = 4096;

/// Reads to the end of input: all bytes that are left, at most `limit`. It reads one byte more before it returns that they
/// are too many.
pub fn read_all<S: Source>(
    alloc: Global,
    source: &mut S,
    limit: usize,
) -> Result<Vec<u8>, ReadFault>
    requires { limit < 2 ^ 64 - 1 }
    ensures whole { IfOk result (λ bytes. IfSome (S.left source.old) (λ left. bytes.items ≡ left)) }
    ensures end { OnOk result (S.left source.new ≡ option_map (λ _. []) (S.left source.old)) }
    ensures short { IfOk result (λ bytes. length bytes.items ≤ limit) }

    // After an error a prefix of the bytes that were left has been taken.
    ensures taken { IfErr result (λ fault. (front : List ℕ) × TookBefore fault limit (length front)
        × (S.left source.old ≡ prepend_known front (S.left source.new))) }
    ensures faults { S.faults source.new ≡ faults_after_all result (S.faults source.old) }
{
    let mut bytes = Vec::new(alloc);
    let mut buffer = [0u8; PIECE];
    while bytes.len() <= limit {
        let most = PIECE.min(limit + 1 - bytes.len());
        let n = source.read(&mut buffer[..most])?;
        if n == 0 {
            return Ok(bytes);
        }
        bytes.extend_from_slice(&buffer[..n])?;
    }
    Err(ReadFault::TooLong)
}

/// Writes all bytes. After an error a prefix of them has been written, and not all. It takes no memory.
pub fn write_all<K: Sink>(sink: &mut K, bytes: &[u8]) -> Result<(), Failed>
    ensures text { Writes result (K.written sink.old) (K.written sink.new) bytes.now }
    ensures faults { K.faults sink.new ≡ faults_after result (K.faults sink.old) }

    // A line goes out as a line: each piece that is given to the sink is a suffix of it.
    ensures lines { IsTrue (is_line bytes.now) → K.broken sink.new ≡ K.broken sink.old }
{
    let mut at = 0;
    while at < bytes.len() {
        at += sink.write(&bytes[at..])?;
    }
    Ok(())
}
