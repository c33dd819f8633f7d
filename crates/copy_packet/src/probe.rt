ghost use Rattle.std.specs.Prelude.{◌≡◌, ◌+◌, ◌≤◌, ◌++◌, [], IfOk, length};

use std::alloc::Global;
use std::marker::Model;
use ttm_base::NoMemory;

/// The greatest number of bytes that a probe shows.
const ROOM: usize = 256;

/// The bytes that a probe or a read shows, seen as a list of at most 256. Only `new` takes memory.
#[derive(Drop)]
pub struct ProbeBytes {
    bytes: Vec<u8>,
}

impl Model for ProbeBytes {
    ghost use Rattle.std.specs.Prelude.{◌≤◌, ℕ, List, vec_capacity};

    ghost Value = { List ℕ };

    ghost view = { λ s. s.bytes.items };

    ghost invariant = { λ s. 256 ≤ vec_capacity s.bytes };
}

impl ProbeBytes {
    /// Returns no bytes, with memory for 256.
    pub fn new(alloc: Global) -> Result<ProbeBytes, NoMemory>
        ensures { IfOk result (λ out. out ≡ []) }
    {
        let bytes = Vec::with_capacity(alloc, ROOM)?;
        Ok(ProbeBytes { bytes })
    }

    /// Lends the bytes.
    pub fn bytes(&self) -> &[u8]
        ensures { result.now ≡ self.now }
    {
        self.bytes.as_slice()
    }

    /// Replaces all bytes by `bytes`.
    pub fn set(&mut self, bytes: &[u8])
        requires { length bytes.now ≤ 256 }
        ensures { self.new ≡ bytes.now }
    {
        self.bytes.clear();
        self.bytes.extend_from_slice(bytes).unwrap();
    }

    /// Appends `bytes`, where there are at most 256 in all.
    pub fn extend(&mut self, bytes: &[u8])
        requires { length self.old + length bytes.now ≤ 256 }
        ensures { self.new ≡ self.old ++ bytes.now }
    {
        self.bytes.extend_from_slice(bytes).unwrap();
    }

    /// Drops all bytes.
    pub(crate) fn clear(&mut self)
        ensures { self.new ≡ [] }
    {
        self.bytes.clear();
    }
}
