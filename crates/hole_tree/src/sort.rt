//! The two sorts of trees: the order of the holes, and what a node keeps of its sides.
ghost use Rattle.std.specs.Prelude.{◌≡◌, ℕ, max, false};
ghost use Rattle.hole_tree.specs.declared.order.Order.{Order};

use crate::order::Order;

/// What a node keeps of a side.
pub trait Side: Copy {
    ghost keeps: { ℕ → Self };

    /// What it keeps of a side whose longest hole has `pages` pages.
    fn of(pages: u32) -> Self
        ensures { result ≡ keeps pages };

    /// What it keeps of two sides together.
    fn both(self, other: Self) -> Self
        ensures { (a b : ℕ) → self ≡ keeps a → other ≡ keeps b → result ≡ keeps (max a b) };

    /// The longest hole of a side may have been one of `pages` pages that went.
    fn may_lose(self, pages: u32) -> bool
        ensures { result ≡ false → (a : ℕ) → self ≡ keeps (max pages a) → self ≡ keeps a };
}

/// A sort of tree: the order of its holes.
pub trait Sort: Side {
    ghost order: { Order };

    /// Names it.
    fn order() -> Order
        ensures { result ≡ order };
}

/// A sort of which a node keeps the longest hole of a side.
pub trait Longest: Side {
    /// How many pages it has, or 0 where there is none.
    fn longest(self) -> u32
        ensures { (a : ℕ) → self ≡ Self.keeps a → result ≡ a };
}

/// Holes by start. A node keeps the longest hole of a side.
#[derive(Clone, Copy)]
pub struct ByStart {
    longest: u32,
}

/// Holes by length, and by start among equals. A node keeps nothing of a side.
#[derive(Clone, Copy)]
pub struct ByLength;

impl Side for ByStart {
    ghost keeps = { λ n. record { longest = n } };

    fn of(pages: u32) -> ByStart {
        ByStart { longest: pages }
    }

    fn both(self, other: ByStart) -> ByStart {
        ByStart {
            longest: self.longest.max(other.longest),
        }
    }

    fn may_lose(self, pages: u32) -> bool {
        self.longest == pages
    }
}

impl Sort for ByStart {
    ghost use Rattle.hole_tree.specs.declared.order.Order.TheVariants as order;

    ghost order = { order.ByStart };

    fn order() -> Order {
        Order::ByStart
    }
}

impl Longest for ByStart {
    fn longest(self) -> u32 {
        self.longest
    }
}

impl Side for ByLength {
    ghost use Rattle.hole_tree.specs.declared.sort.ByLength.{ByLength};

    ghost keeps = { λ n. record {} };

    fn of(_pages: u32) -> ByLength {
        ByLength
    }

    fn both(self, _other: ByLength) -> ByLength {
        ByLength
    }

    fn may_lose(self, _pages: u32) -> bool {
        false
    }
}

impl Sort for ByLength {
    ghost use Rattle.hole_tree.specs.declared.order.Order.TheVariants as order;

    ghost order = { order.ByLength };

    fn order() -> Order {
        Order::ByLength
    }
}
