//! Which side of a node is higher by a level.
ghost use Rattle.std.specs.Prelude.{ℕ, max};
ghost use Rattle.hole_tree.specs.Leaning.{Leans};

#[derive(Clone, Copy)]
pub enum Lean {
    Left,
    Even,
    Right,
}

impl Lean {
    /// How two nodes lean that take over the sides of one that leans so: each has one of them beside a side as high as
    /// the higher one.
    pub(crate) fn parted(self) -> (Lean, Lean)
        ensures first { (l r : ℕ) → Leans self l r → Leans result.0 (max l r) l }
        ensures second { (l r : ℕ) → Leans self l r → Leans result.1 r (max l r) }
    {
        match self {
            Lean::Left => (Lean::Even, Lean::Right),
            Lean::Even => (Lean::Even, Lean::Even),
            Lean::Right => (Lean::Left, Lean::Even),
        }
    }
}
