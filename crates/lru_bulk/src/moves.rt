//! How the rings change where a buffer is listed, leaves its list, joins one, or a group moves in bulk.
ghost use Rattle.std.specs.Prelude.{◌≡◌, ◌+◌, ◌*◌, ◌<◌, ◌≤◌, Some, None, IsSome, OnOk, OnErr, length, map, slice_set};

use crate::nodes::{Links, Listing, Node, Spot};
use crate::rings::{LISTS, Range, Rings, buffer_in, list_number};
use std::sync::ledger::{Blank, Ledger};
use step_count::Steps;
use ttm_base::{BufId, Mem, NoMemory};

impl Rings {
    ghost use Rattle.lru_bulk.specs.declared.nodes.Listing.{Listing as Listed};
    ghost use Rattle.lru_bulk.specs.Lists.{number_of, listing_in, list_at, taken_off, put_on, members_last, is_member, IsGroup};
    ghost use Rattle.lru_bulk.specs.Sound.{listings_of, lists_of, IsWhole};

    /// Gives the buffer `b` a node that is on no list.
    pub(crate) fn put(&mut self, b: BufId, listing: Listing) -> Result<(), NoMemory>
        requires sound { IsWhole self.old None }
        requires known { b.0 < length (listings_of self.old) }
        requires absent { listing_in (listings_of self.old) b ≡ None }
        requires prio { listing.prio < 4 }
        requires group { IsGroup self.old.groups listing.group }
        ensures sound { OnOk result (IsWhole self.new (Some b)) }
        ensures lists { OnOk result (lists_of self.new ≡ lists_of self.old) }
        ensures listings { OnOk result (listings_of self.new ≡ slice_set (listings_of self.old) b.0 (Some listing)) }
        ensures groups { OnOk result (self.new.groups ≡ self.old.groups) }
        ensures err { OnErr result (self.new ≡ self.old) }
        ensures kept { OnErr result (IsWhole self.new None) }
    {
        let links = Links {
            next: Spot::End(0),
            prev: Spot::End(0),
        };
        match self.nodes.put(b, Node { listing, links }) {
            Ok(()) => Ok(()),
            Err(wanted) => Err(wanted),
        }
    }

    /// Removes the node of a buffer that is on no list.
    pub(crate) fn take(&mut self, b: BufId)
        requires sound { IsWhole self.old (Some b) }
        requires listed { IsSome (listing_in (listings_of self.old) b) }
        ensures sound { IsWhole self.new None }
        ensures lists { lists_of self.new ≡ lists_of self.old }
        ensures listings { listings_of self.new ≡ slice_set (listings_of self.old) b.0 None }
        ensures groups { self.new.groups ≡ self.old.groups }
    {
        self.nodes.take(b);
    }

    /// Changes the memory type of a buffer that is on no list.
    pub(crate) fn set_mem(&mut self, b: BufId, mem: Mem)
        requires sound { IsWhole self.old (Some b) }
        requires listed { IsSome (listing_in (listings_of self.old) b) }
        ensures sound { IsWhole self.new (Some b) }
        ensures lists { lists_of self.new ≡ lists_of self.old }
        ensures listings { (x : Listed) → listing_in (listings_of self.old) b ≡ Some x → listings_of self.new ≡ slice_set (listings_of self.old) b.0 (Some (record x { mem = mem })) }
        ensures groups { self.new.groups ≡ self.old.groups }
    {
        let node = self.nodes.at(b);
        let listing = Listing {
            mem,
            ..node.listing
        };
        self.nodes.set(b, Node { listing, ..node });
    }
}

impl Rings {
    ghost use Rattle.lru_bulk.specs.declared.nodes.Listing.{Listing as Listed};
    ghost use Rattle.lru_bulk.specs.Lists.{number_of, listing_in, list_at, taken_off, put_on, members_last, is_member};
    ghost use Rattle.lru_bulk.specs.Sound.{next_at, listings_of, lists_of, range_at, IsWhole};

    /// Removes a buffer from its list, and keeps its node. Two links are written.
    pub(crate) fn leave<L: Ledger>(&mut self, b: BufId, steps: &mut Steps<L>)
        requires sound { IsWhole self.old None }
        requires listed { IsSome (listing_in (listings_of self.old) b) }
        ensures sound { IsWhole self.new (Some b) }
        ensures lists { lists_of self.new ≡ taken_off (lists_of self.old) b }
        ensures listings { listings_of self.new ≡ listings_of self.old }
        ensures groups { self.new.groups ≡ self.old.groups }
        ensures cost { steps.new ≡ steps.old + 2 }
    {
        let node = self.nodes.at(b);
        self.tie(node.links.prev, node.links.next, steps);
        self.narrow(node.listing, b, node.links);
    }

    /// Puts a buffer that is on no list on the list for which it is listed. Four links are written.
    pub(crate) fn join<L: Ledger>(&mut self, b: BufId, steps: &mut Steps<L>)
        requires sound { IsWhole self.old (Some b) }
        requires listed { IsSome (listing_in (listings_of self.old) b) }
        ensures sound { IsWhole self.new None }
        ensures lists { (x : Listed) → listing_in (listings_of self.old) b ≡ Some x → lists_of self.new ≡ put_on (listings_of self.old) (lists_of self.old) b (number_of x) }
        ensures listings { listings_of self.new ≡ listings_of self.old }
        ensures groups { self.new.groups ≡ self.old.groups }
        ensures cost { steps.new ≡ steps.old + 4 }
    {
        let node = self.nodes.at(b);
        let list = list_number(node.listing);
        let left = self.spot_before(node.listing.group, list);
        let right = self.links(left).next;
        self.tie(left, Spot::Of(b), steps);
        self.tie(Spot::Of(b), right, steps);
        self.widen(node.listing, b);
    }

    // Splices a range, which ends before the buffer `behind`, to the end of a list. Six links are written.
    fn splice_before<L: Ledger>(
        &mut self,
        group: u32,
        list: usize,
        range: Range,
        behind: BufId,
        steps: &mut Steps<L>,
    )
        requires sound { IsWhole self.old None }
        requires group { group < self.old.groups }
        requires list { list < 12 }
        requires range { range_at self.old.ranges group list ≡ Some range }
        requires behind { next_at self.old (Spot.Of range.last) ≡ Spot.Of behind }
        ensures sound { IsWhole self.new None }
        ensures lists { lists_of self.new ≡ slice_set (lists_of self.old) list (members_last (is_member (listings_of self.old) group) (list_at (lists_of self.old) list)) }
        ensures listings { listings_of self.new ≡ listings_of self.old }
        ensures groups { self.new.groups ≡ self.old.groups }
        ensures cost { steps.new ≤ steps.old + 6 }
    {
        let first = self.links(Spot::Of(range.first));
        let end = self.links(Spot::End(list));
        self.tie(first.prev, Spot::Of(behind), steps);
        self.tie(end.prev, Spot::Of(range.first), steps);
        self.tie(Spot::Of(range.last), Spot::End(list), steps);
    }

    // Splices a range to the end of a list, unless it is there already. At most six links are written.
    fn splice_range<L: Ledger>(
        &mut self,
        group: u32,
        list: usize,
        range: Range,
        steps: &mut Steps<L>,
    )
        requires sound { IsWhole self.old None }
        requires group { group < self.old.groups }
        requires list { list < 12 }
        requires range { range_at self.old.ranges group list ≡ Some range }
        ensures sound { IsWhole self.new None }
        ensures lists { lists_of self.new ≡ slice_set (lists_of self.old) list (members_last (is_member (listings_of self.old) group) (list_at (lists_of self.old) list)) }
        ensures listings { listings_of self.new ≡ listings_of self.old }
        ensures groups { self.new.groups ≡ self.old.groups }
        ensures cost { steps.new ≤ steps.old + 6 }
    {
        let last = self.links(Spot::Of(range.last));
        match last.next {
            Spot::End(_) => {}
            Spot::Of(behind) => self.splice_before(group, list, range, behind, steps),
        }
    }

    /// Splices the range of a group, if it has one, to the end of a list. At most six links are written.
    pub(crate) fn splice<L: Ledger>(&mut self, group: u32, list: usize, steps: &mut Steps<L>)
        requires sound { IsWhole self.old None }
        requires group { group < self.old.groups }
        requires list { list < 12 }
        ensures sound { IsWhole self.new None }
        ensures lists { lists_of self.new ≡ slice_set (lists_of self.old) list (members_last (is_member (listings_of self.old) group) (list_at (lists_of self.old) list)) }
        ensures listings { listings_of self.new ≡ listings_of self.old }
        ensures groups { self.new.groups ≡ self.old.groups }
        ensures cost { steps.new ≤ steps.old + 6 }
    {
        let found = self.range(Some(group), list);
        match found {
            None => {}
            Some(range) => self.splice_range(group, list, range, steps),
        }
    }

    /// Splices the range of a group to the end of each list.
    pub(crate) fn splice_all<L: Ledger>(&mut self, group: u32, steps: &mut Steps<L>)
        requires sound { IsWhole self.old None }
        requires group { group < self.old.groups }
        ensures sound { IsWhole self.new None }
        ensures lists { lists_of self.new ≡ map (members_last (is_member (listings_of self.old) group)) (lists_of self.old) }
        ensures listings { listings_of self.new ≡ listings_of self.old }
        ensures groups { self.new.groups ≡ self.old.groups }
        ensures cost { steps.new ≤ steps.old + 6 * 12 }
    {
        for list in 0..LISTS {
            self.splice(group, list, steps);
        }
    }
}

impl Rings {
    ghost use Rattle.lru_bulk.specs.declared.nodes.Listing.{Listing as Listed};
    ghost use Rattle.lru_bulk.specs.Lists.{Order, listing_of, added, removed, touched, relisted, bulk_moved, IsGroup};
    ghost use Rattle.lru_bulk.specs.Sound.{order_of, IsWhole};

    /// Gives a buffer a node, and puts it on its list.
    pub(crate) fn enlist<L: Ledger>(
        &mut self,
        b: BufId,
        listing: Listing,
        blank: Blank,
    ) -> Result<(), NoMemory>
        requires name { blank.name ≡ L.name }
        requires parts { blank.parts ≡ L.parts }
        requires one_part { blank.parts ≡ 1 }
        requires sound { IsWhole self.old None }
        requires known { b.0 < length (order_of self.old).listings }
        requires absent { listing_of (order_of self.old) b ≡ None }
        requires prio { listing.prio < 4 }
        requires group { IsGroup self.old.groups listing.group }
        ensures sound { IsWhole self.new None }
        ensures ok { OnOk result (order_of self.new ≡ added (order_of self.old) b listing) }
        ensures err { OnErr result (order_of self.new ≡ order_of self.old) }
    {
        self.put(b, listing)?;
        let mut steps = Steps::<L>::new(blank);
        self.join(b, &mut steps);
        Ok(())
    }

    /// Removes a buffer from its list, and its node too.
    pub(crate) fn delist<L: Ledger>(&mut self, b: BufId, blank: Blank)
        requires name { blank.name ≡ L.name }
        requires parts { blank.parts ≡ L.parts }
        requires one_part { blank.parts ≡ 1 }
        requires sound { IsWhole self.old None }
        requires listed { IsSome (listing_of (order_of self.old) b) }
        ensures sound { IsWhole self.new None }
        ensures order { order_of self.new ≡ removed (order_of self.old) b }
    {
        let mut steps = Steps::<L>::new(blank);
        self.leave(b, &mut steps);
        self.take(b);
    }

    /// Removes a buffer from its list and puts it on the list again.
    pub(crate) fn replace<L: Ledger>(&mut self, b: BufId, blank: Blank)
        requires name { blank.name ≡ L.name }
        requires parts { blank.parts ≡ L.parts }
        requires one_part { blank.parts ≡ 1 }
        requires sound { IsWhole self.old None }
        requires listed { IsSome (listing_of (order_of self.old) b) }
        ensures sound { IsWhole self.new None }
        ensures order { order_of self.new ≡ touched (order_of self.old) b }
    {
        let mut steps = Steps::<L>::new(blank);
        self.leave(b, &mut steps);
        self.join(b, &mut steps);
    }

    /// Removes a buffer from its list and puts it on the list of another memory type.
    pub(crate) fn rehome<L: Ledger>(&mut self, b: BufId, mem: Mem, blank: Blank)
        requires name { blank.name ≡ L.name }
        requires parts { blank.parts ≡ L.parts }
        requires one_part { blank.parts ≡ 1 }
        requires sound { IsWhole self.old None }
        requires listed { IsSome (listing_of (order_of self.old) b) }
        ensures sound { IsWhole self.new None }
        ensures order { order_of self.new ≡ relisted (order_of self.old) b mem }
    {
        let mut steps = Steps::<L>::new(blank);
        self.leave(b, &mut steps);
        self.set_mem(b, mem);
        self.join(b, &mut steps);
    }

    /// Splices the range of a group to the end of each list, and counts no steps for the caller.
    pub(crate) fn splice_uncounted<L: Ledger>(&mut self, group: u32, blank: Blank)
        requires name { blank.name ≡ L.name }
        requires parts { blank.parts ≡ L.parts }
        requires one_part { blank.parts ≡ 1 }
        requires sound { IsWhole self.old None }
        requires group { group < self.old.groups }
        ensures sound { IsWhole self.new None }
        ensures order { order_of self.new ≡ bulk_moved (order_of self.old) group }
    {
        let mut steps = Steps::<L>::new(blank);
        self.splice_all(group, &mut steps);
    }
}

impl Rings {
    ghost use Rattle.std.specs.Prelude.{slice_get};
    ghost use Rattle.lru_bulk.specs.Lists.{list_number as number, list_at, list_of, listing_of, behind};
    ghost use Rattle.lru_bulk.specs.Sound.{order_of, IsWhole};

    /// Returns the first buffer of a list, or None where the list is empty.
    pub(crate) fn first(&self, mem: Mem, prio: u32) -> Option<BufId>
        requires sound { IsWhole self.now None }
        requires prio { prio < 4 }
        ensures { result ≡ slice_get (list_at (order_of self.now).lists (number mem prio)) 0 }
    {
        let list = list_number(Listing {
            mem,
            prio,
            group: None,
        });
        let links = self.links(Spot::End(list));
        buffer_in(links.next)
    }

    /// Returns the buffer after `b` in its list, or None where `b` is the last.
    pub(crate) fn next(&self, b: BufId) -> Option<BufId>
        requires sound { IsWhole self.now None }
        requires listed { IsSome (listing_of (order_of self.now) b) }
        ensures { result ≡ behind b (list_of (order_of self.now) b) }
    {
        let links = self.links(Spot::Of(b));
        buffer_in(links.next)
    }
}
