//! The two orders in which trees keep the holes.
ghost use Rattle.std.specs.Prelude.{◌≡◌};
ghost use Rattle.hole_tree.specs.Sorting.{before};

use crate::hole::Hole;

/// The order of the holes of a tree.
#[derive(Clone, Copy)]
pub enum Order {
    /// The lower hole stands first.
    ByStart,
    /// The shorter hole stands first, the lower one among equals.
    ByLength,
}

impl Order {
    /// The first hole stands before the second.
    pub(crate) fn is_before(self, first: Hole, second: Hole) -> bool
        ensures { result ≡ before self first second }
    {
        match self {
            Order::ByStart => first.start() < second.start(),
            Order::ByLength => first.rank() < second.rank(),
        }
    }
}
