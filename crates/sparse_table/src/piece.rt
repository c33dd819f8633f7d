//! A piece of the table: the numbers of neighbouring places.
ghost use Rattle.std.specs.Prelude.{◌≡◌, ℕ, ◌<◌, ◌==◌, [], IfOk, OnOk, OnErr, length, replicate, slice_index, if◌then◌else◌};

use std::alloc::Global;
use std::marker::Model;
use ttm_base::NoMemory;

/// The number of places of a piece.
pub const PIECE: usize = 1024;

/// The numbers of a piece: none before one is set, and then all `PIECE` of them, of which the others are 0.
#[derive(Drop)]
pub struct Piece {
    numbers: Vec<u32>,
}

impl Model for Piece {
    ghost use Rattle.std.specs.Prelude.{ℕ, List};

    ghost Value = { List ℕ };

    ghost use Rattle.sparse_table.specs.Pieces.{IsPiece};

    ghost view = { λ p. p.numbers.items };

    ghost invariant = { λ p. IsPiece p.numbers.items };
}

/// Returns the numbers of a piece, all of them 0.
#[cold]
#[inline(never)]
fn zeros(alloc: Global) -> Result<Vec<u32>, NoMemory>
    ensures { IfOk result (λ numbers. numbers.items ≡ replicate 1024 0) }
{
    let numbers = vec![in alloc; 0; PIECE]?;
    Ok(numbers)
}

impl Piece {
    /// Makes a piece in which no number is set. It takes no memory.
    pub fn new(alloc: Global) -> Piece
        ensures { result ≡ [] }
    {
        Piece {
            numbers: Vec::new(alloc),
        }
    }

    /// Returns the number at `at`, which is 0 where none was set.
    #[inline]
    pub fn get(&self, at: usize) -> u32
        ensures { result ≡ slice_index self.now at }
    {
        self.numbers.get(at).copied().unwrap_or(0)
    }

    /// Makes room for all numbers of the piece. Where memory is refused nothing changes.
    #[inline]
    fn fill(&mut self) -> Result<(), NoMemory>
        ensures size { OnOk result (length self.new ≡ 1024) }
        ensures kept { (other : ℕ) → slice_index self.new other ≡ slice_index self.old other }
        ensures same { OnErr result (self.new ≡ self.old) }
    {
        if !self.numbers.is_empty() {
            return Ok(());
        }
        self.numbers = zeros(*self.numbers.allocator())?;
        Ok(())
    }

    /// Sets the number at `at`. Where memory is refused nothing changes.
    #[inline]
    pub fn set(&mut self, at: usize, number: u32) -> Result<(), NoMemory>
        requires { at < 1024 }
        ensures set { OnOk result ((other : ℕ) → slice_index self.new other ≡ (if other == at then number else slice_index self.old other)) }
        ensures same { OnErr result (self.new ≡ self.old) }
    {
        self.fill()?;
        self.numbers[at] = number;
        Ok(())
    }

    /// Replaces the number at `at` of a piece that has numbers. It takes no memory.
    #[inline]
    pub fn replace(&mut self, at: usize, number: u32)
        requires { at < length self.old }
        ensures { (other : ℕ) → slice_index self.new other ≡ (if other == at then number else slice_index self.old other) }
    {
        self.numbers[at] = number;
    }
}
