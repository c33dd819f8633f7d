ghost use Rattle.std.specs.Prelude.{◌≡◌, ℕ, ◌<◌, All, length, slice_index, bit_xor, IfOk, OnOk, OnErr};
ghost use Rattle.journal_model.specs.rules.PlainMemory as words;
ghost use Rattle.plain_memory.specs.Kept.{BecomesMemory, memory_in, sizes_in, sizes_of};
ghost use Rattle.plain_memory.specs.Fits.{HasRange, OpFits};

use crate::buffer_bytes::BufferBytes;
use journal_model::{Bytes, Script};
use std::alloc::Global;
use std::marker::Model;
use ttm_base::{BufId, NoMemory, Op};

/// The bytes of each buffer of a script, each buffer in a place of its own, and zeros at first. A write touches only its range.
#[derive(Drop)]
pub struct PlainMemory {
    contents: Vec<BufferBytes>,
}

impl Model for PlainMemory {
    ghost use Rattle.std.specs.Prelude.{ℕ, List};

    ghost Value = { List (List ℕ) };

    ghost view = { λ s. s.contents.items };
}

/// Returns the exclusive or of the bytes `one` with as many others.
fn xored(alloc: Global, one: &[u8], other: &[u8]) -> Result<Bytes, NoMemory>
    requires { length one.now ≡ length other.now }
    ensures len { IfOk result (λ bytes. length bytes ≡ length one.now) }
    ensures each { IfOk result (λ bytes. (i : ℕ) → i < length one.now → slice_index bytes i ≡ bit_xor (slice_index other.now i) (slice_index one.now i)) }
{
    let mut bytes = Bytes::new(alloc);
    for i in 0..one.len() {
        bytes.push(other[i] ^ one[i])?;
    }
    Ok(bytes)
}

impl PlainMemory {
    /// Makes a memory with zeros in each buffer of `script`.
    pub fn new(alloc: Global, script: &Script) -> Result<PlainMemory, NoMemory>
        ensures sizes { IfOk result (λ memory. sizes_in memory ≡ sizes_of script.now) }
        ensures zeros { IfOk result (λ memory. memory_in memory ≡ (λ b i. 0)) }
    {
        let mut contents = Vec::new(alloc);
        for buffer in script.buffers.items() {
            contents.push(BufferBytes::new(alloc, buffer.pages)?)?;
        }
        Ok(PlainMemory { contents })
    }

    /// Returns `len` bytes of buffer `b` from `off` on.
    pub fn range(&self, b: BufId, off: u32, len: u32) -> &[u8]
        requires { HasRange (sizes_in self.now) b off len }
        ensures { result.now ≡ words.memory_range (memory_in self.now) b off len }
    {
        self.contents[b.0 as usize].range(off as usize, len as usize)
    }

    /// Makes all bytes of buffer `b` zero, where there is the buffer.
    pub fn clear(&mut self, b: BufId)
        ensures { BecomesMemory self.old self.new (words.with_zeros b (memory_in self.old)) }
    {
        let index = b.0 as usize;
        if index < self.contents.as_slice().len() {
            self.contents[index].clear();
        }
    }

    /// Writes the bytes `from` to buffer `b` from `off` on.
    pub fn write(&mut self, b: BufId, off: u32, from: &[u8])
        requires { HasRange (sizes_in self.old) b off (length from.now) }
        ensures { BecomesMemory self.old self.new (words.with_range b off (length from.now) (slice_index from.now) (memory_in self.old)) }
    {
        self.contents[b.0 as usize].write(off as usize, from);
    }

    /// Writes `byte` to `len` bytes of buffer `b` from `off` on.
    pub fn fill(&mut self, b: BufId, off: u32, len: u32, byte: u8)
        requires { HasRange (sizes_in self.old) b off len }
        ensures { BecomesMemory self.old self.new (words.with_range b off len (λ i. byte) (memory_in self.old)) }
    {
        self.contents[b.0 as usize].fill(off as usize, len as usize, byte);
    }
}

/// The place where a range of bytes begins.
#[derive(Clone, Copy)]
struct Spot {
    b: BufId,
    off: u32,
}

impl PlainMemory {
    ghost use Rattle.ttm_base.specs.declared.Op.TheVariants as ops_by_name;

    /// Copies `len` bytes, through a list of that length.
    fn copy(&mut self, alloc: Global, to: Spot, from: Spot, len: u32) -> Result<(), NoMemory>
        requires to { HasRange (sizes_in self.old) to.b to.off len }
        requires from { HasRange (sizes_in self.old) from.b from.off len }
        ensures ok { OnOk result (BecomesMemory self.old self.new (words.after_op (memory_in self.old) (ops_by_name.Copy to.b to.off from.b from.off len))) }
        ensures err { OnErr result (self.new ≡ self.old) }
    {
        let bytes = Vec::from_slice(alloc, self.range(from.b, from.off, len))?;
        self.write(to.b, to.off, bytes.as_slice());
        Ok(())
    }

    /// Replaces `len` bytes at `to` by their exclusive or with those at `from`, through a list of that length.
    fn xor(&mut self, alloc: Global, to: Spot, from: Spot, len: u32) -> Result<(), NoMemory>
        requires to { HasRange (sizes_in self.old) to.b to.off len }
        requires from { HasRange (sizes_in self.old) from.b from.off len }
        ensures ok { OnOk result (BecomesMemory self.old self.new (words.after_op (memory_in self.old) (ops_by_name.Xor to.b to.off from.b from.off len))) }
        ensures err { OnErr result (self.new ≡ self.old) }
    {
        let one = self.range(from.b, from.off, len);
        let other = self.range(to.b, to.off, len);
        let bytes = xored(alloc, one, other)?;
        self.write(to.b, to.off, bytes.items());
        Ok(())
    }

    /// Applies an operation at once and whole. A copy or an exclusive or takes memory for its bytes for a while.
    pub fn apply(&mut self, alloc: Global, op: Op) -> Result<(), NoMemory>
        requires { OpFits (sizes_in self.old) op }
        ensures ok { OnOk result (BecomesMemory self.old self.new (words.after_op (memory_in self.old) op)) }
        ensures err { OnErr result (self.new ≡ self.old) }
    {
        match op {
            Op::Fill {
                dst,
                off,
                len,
                byte,
            } => {
                self.fill(dst, off, len, byte);
                Ok(())
            }
            Op::Copy {
                dst,
                doff,
                src,
                soff,
                len,
            } => self.copy(
                alloc,
                Spot { b: dst, off: doff },
                Spot { b: src, off: soff },
                len,
            ),
            Op::Xor {
                dst,
                doff,
                src,
                soff,
                len,
            } => self.xor(
                alloc,
                Spot { b: dst, off: doff },
                Spot { b: src, off: soff },
                len,
            ),
            Op::Probe { .. } => Ok(()),
        }
    }

    /// Applies operations in their order. Where memory is refused, those before the one that needs it are applied.
    pub fn apply_all(&mut self, alloc: Global, ops: &[Op]) -> Result<(), NoMemory>
        requires { All (OpFits (sizes_in self.old)) ops.now }
        ensures { OnOk result (BecomesMemory self.old self.new (words.after_ops (memory_in self.old) ops.now)) }
    {
        for op in ops {
            self.apply(alloc, *op)?;
        }
        Ok(())
    }
}
