ghost use Rattle.std.specs.Prelude.{◌≡◌, ◌<◌, [], IfOk, OnOk, OnErr, length, replicate, slice_index, slice_set};

use crate::piece::{PIECE, Piece};
use std::alloc::Global;
use std::marker::Model;
use ttm_base::NoMemory;

/// A table with a number for each place, which is 0 until it is set. It takes memory only for those pieces of 1,024 places
/// in which a number was set, and keeps it until the table is dropped.
pub struct SparseTable {
    pieces: Vec<Piece>,
    len: usize,
}

/// Names each part, so that no crate above proves how they are dropped.
impl Drop for SparseTable {
    fn drop(self) {
        let Self { pieces: _, len: _ } = self;
    }
}

impl Model for SparseTable {
    ghost use Rattle.std.specs.Prelude.{ℕ, List};

    ghost Value = { List ℕ };

    ghost use Rattle.sparse_table.specs.Pieces.{numbers_from, HasPieces};

    ghost view = { λ t. numbers_from t.pieces.items 0 t.len };

    ghost invariant = { λ t. HasPieces t.pieces.items t.len };
}

/// Makes `count` pieces in which no number is set.
#[tactic(auto, using(crate::proofs::PieceLaws::one_more))]
fn no_numbers(alloc: Global, count: usize) -> Result<Vec<Piece>, NoMemory>
    ensures { IfOk result (λ pieces. pieces.items ≡ replicate count []) }
{
    let mut pieces = Vec::with_capacity(alloc, count)?;
    for _piece in 0..count {
        pieces.push(Piece::new(alloc))?;
    }
    Ok(pieces)
}

impl SparseTable {
    /// Makes a table of `len` places, each with the number 0. It takes 24 bytes for each 1,024 places.
    pub fn new(alloc: Global, len: u32) -> Result<SparseTable, NoMemory>
        ensures { IfOk result (λ table. table ≡ replicate len 0) }
    {
        let len = len as usize;
        let pieces = no_numbers(alloc, len / PIECE + 1)?;
        Ok(SparseTable { pieces, len })
    }

    /// Returns the number of places.
    #[inline]
    pub fn len(&self) -> usize
        ensures { result ≡ length self.now }
    {
        self.len
    }

    /// Returns the number at place `at`, or 0 where there is no such place.
    #[inline]
    pub fn get(&self, at: usize) -> u32
        ensures { result ≡ slice_index self.now at }
    {
        if at >= self.len {
            return 0;
        }
        self.pieces[at / PIECE].get(at % PIECE)
    }

    /// Sets the number at place `at`. It takes 4,096 bytes for the first one of a piece. Where memory is refused nothing
    /// changes.
    #[inline]
    pub fn set(&mut self, at: usize, number: u32) -> Result<(), NoMemory>
        requires { at < length self.old }
        ensures set { OnOk result (self.new ≡ slice_set self.old at number) }
        ensures same { OnErr result (self.new ≡ self.old) }
    {
        self.pieces[at / PIECE].set(at % PIECE, number)?;
        Ok(())
    }

    /// Replaces the number at place `at`, which has one other than 0. It takes no memory.
    #[inline]
    pub fn replace(&mut self, at: usize, number: u32)
        requires { 0 < slice_index self.old at }
        ensures { self.new ≡ slice_set self.old at number }
    {
        self.pieces[at / PIECE].replace(at % PIECE, number);
    }
}
