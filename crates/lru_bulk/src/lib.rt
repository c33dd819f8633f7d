//! The twelve LRU lists of buffers in the order of eviction, by memory type and priority, with bulk moves of groups (the
//! lists lru of ttm_resource_manager, ttm_lru_bulk_move). The nodes are in a slab and are linked by the numbers of their
//! buffers. Each list is a ring through its end, and for each group and list the first and the last member are kept, so that
//! a bulk move splices one range.
#![tactic(auto)]

ghost use Rattle.std.specs.Prelude.{◌≡◌, ◌+◌, ◌*◌, ◌<◌, ◌≤◌, ◌↔◌, ℕ, Some, None, IsSome, IsTrue, IfOk, OnOk, OnErr, length, slice_get};
ghost use Rattle.std.specs.List.{IsDistinct};
ghost use Rattle.lru_bulk.specs.Lists.{nothing_listed, listing_of, list_number, list_at, list_of, added, removed, touched, relisted, bulk_moved, bulk_moved_in, behind, is_member, IsGroup, StandTogether};
ghost use Rattle.lru_bulk.specs.Members.{same_buffer, times_in, AreMembersListed, IsOnNone};

use std::alloc::Global;
use std::marker::{Brand, Model};
use std::sync::ledger::{Blank, Ledger};
use ttm_base::{BufId, Mem, NoMemory};

mod moves;
mod nodes;
mod rings;

pub use nodes::Listing;
use rings::Rings;
pub use step_count::Steps;

/// The twelve LRU lists, seen as lists of buffers, with how each buffer is listed. A group is a number below the count that
/// was given to `new`.
pub struct Lru {
    rings: Rings,
}

/// Names each part, so that no crate above proves how they are dropped.
impl Drop for Lru {
    fn drop(self) {
        let Self { rings: _ } = self;
    }
}

impl Model for Lru {
    ghost use Rattle.lru_bulk.specs.Lists.{Order};

    ghost Value = { Order };

    ghost use Rattle.std.specs.Prelude.{None};
    ghost use Rattle.lru_bulk.specs.Sound.{order_of, IsWhole};

    ghost view = { λ l. order_of l.rings };

    ghost invariant = { λ l. IsWhole l.rings None };
}

impl Lru {
    ghost use Rattle.lru_bulk.specs.declared.nodes.Listing.{Listing as Listed};

    /// Returns empty lists for `buffers` buffers and `groups` groups.
    pub fn new(alloc: Global, buffers: u32, groups: u32) -> Result<Lru, NoMemory>
        ensures { IfOk result (λ lru. lru ≡ nothing_listed buffers groups) }
    {
        let rings = Rings::new(alloc, buffers, groups)?;
        Ok(Lru { rings })
    }

    /// Lists the buffer `b`, after the last member of its group in its list, or at the end of the list. Makes room for the
    /// buffer in the lists of all memory types. Where memory is refused nothing changes.
    pub fn add(&mut self, b: BufId, mem: Mem, prio: u32, group: Option<u32>) -> Result<(), NoMemory>
        requires known { b.0 < length self.old.listings }
        requires absent { listing_of self.old b ≡ None }
        requires prio { prio < 4 }
        requires group { IsGroup self.old.groups group }
        ensures ok { OnOk result (self.new ≡ added self.old b (record { mem = mem; prio = prio; group = group })) }
        ensures err { OnErr result (self.new ≡ self.old) }
    {
        let listing = Listing { mem, prio, group };
        self.rings.enlist::<Brand>(b, listing, Blank::new(1))
    }

    /// Removes the buffer `b` from its list.
    pub fn remove(&mut self, b: BufId)
        requires { IsSome (listing_of self.old b) }
        ensures { self.new ≡ removed self.old b }
    {
        self.rings.delist::<Brand>(b, Blank::new(1));
    }

    /// Moves the buffer `b` in its list: after the last other member of its group, or to the end of the list.
    pub fn touch(&mut self, b: BufId)
        requires { IsSome (listing_of self.old b) }
        ensures { self.new ≡ touched self.old b }
    {
        self.rings.replace::<Brand>(b, Blank::new(1));
    }

    /// Moves the buffer `b` to the list of the memory type `mem`, which may be its own, with its priority and group.
    pub fn relist(&mut self, b: BufId, mem: Mem)
        requires { IsSome (listing_of self.old b) }
        ensures { self.new ≡ relisted self.old b mem }
    {
        self.rings.rehome::<Brand>(b, mem, Blank::new(1));
    }

    /// Moves the members of a group to the end of each list, where members and non-members keep their order.
    pub fn bulk_tail(&mut self, group: u32)
        requires { group < self.old.groups }
        ensures { self.new ≡ bulk_moved self.old group }
    {
        self.rings.splice_uncounted::<Brand>(group, Blank::new(1));
    }

    /// Moves the members of a group to the end of each list, as `bulk_tail` does, and counts a step for each link that is
    /// written: at most six for each of the twelve lists, however many members the group has.
    pub fn bulk_tail_counted<L: Ledger>(&mut self, group: u32, steps: &mut Steps<L>)
        requires { group < self.old.groups }
        ensures lists { self.new ≡ bulk_moved self.old group }
        ensures cost { steps.new ≤ steps.old + 6 * 12 }
    {
        self.rings.splice_all(group, steps);
    }

    /// Moves the members of a group to the end of one list alone, as `bulk_tail` does in each of the twelve. Counts a step
    /// for each link that is written: at most six, however many members the group has there.
    pub fn bulk_tail_in<L: Ledger>(&mut self, mem: Mem, prio: u32, group: u32, steps: &mut Steps<L>)
        requires prio { prio < 4 }
        requires group { group < self.old.groups }
        ensures list { self.new ≡ bulk_moved_in self.old (list_number mem prio) group }
        ensures cost { steps.new ≤ steps.old + 6 }
    {
        let listing = Listing {
            mem,
            prio,
            group: None,
        };
        self.rings.splice(group, rings::list_number(listing), steps);
    }

    /// Returns whether the buffer `b` is on a list.
    pub fn is_listed(&self, b: BufId) -> bool
        ensures { IsTrue result ↔ IsSome (listing_of self.now b) }
    {
        self.rings.nodes.has(b)
    }

    /// Returns whether `add` may be called: `b` is one of the buffers for which `new` made the lists, and is on no list, and
    /// the group, if there is one, is one of its groups.
    pub fn can_add(&self, b: BufId, group: Option<u32>) -> bool
        ensures known { IsTrue result → b.0 < length self.now.listings }
        ensures absent { IsTrue result → listing_of self.now b ≡ None }
        ensures group { IsTrue result → IsGroup self.now.groups group }
        ensures can { b.0 < length self.now.listings → listing_of self.now b ≡ None → IsGroup self.now.groups group → IsTrue result }
    {
        let nodes = &self.rings.nodes;
        let known = (b.0 as usize) < nodes.len() && !nodes.has(b);
        match group {
            None => known,
            Some(group) => known && group < self.rings.groups,
        }
    }

    /// Returns the first buffer of a list, which is to be evicted first, or None where the list is empty.
    pub fn first(&self, mem: Mem, prio: u32) -> Option<BufId>
        requires { prio < 4 }
        ensures { result ≡ slice_get (list_at self.now.lists (list_number mem prio)) 0 }
    {
        self.rings.first(mem, prio)
    }

    /// Returns the buffer after `b` in its list, or None where `b` is the last.
    pub fn next(&self, b: BufId) -> Option<BufId>
        requires { IsSome (listing_of self.now b) }
        ensures { result ≡ behind b (list_of self.now b) }
    {
        self.rings.next(b)
    }

    /// Tells that a buffer is on a list exactly where it is listed for it, and that it is there once. The call does nothing:
    /// its contract is the law.
    pub fn members_stand_once(&self)
        ensures twelve { length self.now.lists ≡ 12 }
        ensures listed { AreMembersListed self.now }
        ensures once { (b : BufId) → IsSome (listing_of self.now b) → times_in b (list_of self.now b) ≡ 1 }
        ensures distinct { (i : ℕ) → IsDistinct same_buffer (list_at self.now.lists i) }
        ensures absent { (b : BufId) → (listing_of self.now b ≡ None) ↔ IsOnNone self.now b }
        ensures prios { (b : BufId) (x : Listed) → listing_of self.now b ≡ Some x → x.prio < 4 }
    {
        let _groups = self.rings.groups;
    }

    /// Tells that in each list the members of one group are side by side. The call does nothing: its contract is the law.
    pub fn stand_together(&self)
        ensures { (i g : ℕ) → i < 12 → g < self.now.groups → StandTogether (is_member self.now.listings g) (list_at self.now.lists i) }
    {
        let _groups = self.rings.groups;
    }
}
