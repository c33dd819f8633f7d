ghost use Rattle.std.specs.Prelude.{◌≡◌, ◌+◌, ◌*◌, ◌≤◌, ◌++◌, drop, length, replicate, slice_range, take, IfOk};

use std::alloc::Global;
use std::marker::Model;
use ttm_base::NoMemory;
use ttm_base::limits::PAGE_BYTES;

/// The size of a page in bytes.
const PAGE: usize = PAGE_BYTES as usize;

/// The bytes of one buffer. Nothing but `new` takes memory.
#[derive(Drop)]
pub struct BufferBytes {
    bytes: Vec<u8>,
}

impl Model for BufferBytes {
    ghost use Rattle.std.specs.Prelude.{ℕ, List};

    ghost Value = { List ℕ };

    ghost view = { λ s. s.bytes.items };
}

/// Writes the bytes `from` at the offset `off`.
fn write_at(content: &mut [u8], off: usize, from: &[u8])
    requires { off + length from.now ≤ length content.old }
    ensures { content.new ≡ take off content.old ++ (from.now ++ drop (off + length from.now) content.old) }
{
    content[off..off + from.len()].copy_from_slice(from);
}

/// Writes `byte` to `len` bytes from `off` on.
fn fill_at(content: &mut [u8], off: usize, len: usize, byte: u8)
    requires { off + len ≤ length content.old }
    ensures { content.new ≡ take off content.old ++ (replicate len byte ++ drop (off + len) content.old) }
{
    content[off..off + len].fill(byte);
}

impl BufferBytes {
    /// Makes `pages` pages of zeros.
    pub fn new(alloc: Global, pages: u32) -> Result<BufferBytes, NoMemory>
        ensures { IfOk result (λ content. content ≡ replicate (4096 * pages) 0) }
    {
        let bytes = vec![in alloc; 0; pages as usize * PAGE]?;
        Ok(BufferBytes { bytes })
    }

    /// Returns `len` bytes from `off` on.
    pub fn range(&self, off: usize, len: usize) -> &[u8]
        requires { off + len ≤ length self.now }
        ensures { result.now ≡ slice_range self.now off (off + len) }
    {
        &self.bytes[off..off + len]
    }

    /// Writes the bytes `from` from `off` on.
    pub fn write(&mut self, off: usize, from: &[u8])
        requires { off + length from.now ≤ length self.old }
        ensures { self.new ≡ take off self.old ++ (from.now ++ drop (off + length from.now) self.old) }
    {
        write_at(self.bytes.as_mut_slice(), off, from);
    }

    /// Writes `byte` to `len` bytes from `off` on.
    pub fn fill(&mut self, off: usize, len: usize, byte: u8)
        requires { off + len ≤ length self.old }
        ensures { self.new ≡ take off self.old ++ (replicate len byte ++ drop (off + len) self.old) }
    {
        fill_at(self.bytes.as_mut_slice(), off, len, byte);
    }

    /// Makes all bytes zero.
    pub fn clear(&mut self)
        ensures { self.new ≡ replicate (length self.old) 0 }
    {
        self.bytes.as_mut_slice().fill(0);
    }
}
