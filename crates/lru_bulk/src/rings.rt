ghost use Rattle.std.specs.Prelude.{◌≡◌, ◌≢◌, ◌+◌, ◌*◌, ◌<◌, ◌≤◌, Some, None, IsSome, IfOk, OnOk, OnErr, length, slice_set};
ghost use Rattle.ttm_base.specs.Reach.{mem_number};
ghost use Rattle.lru_bulk.specs.Lists.{number_of};
ghost use Rattle.lru_bulk.specs.Sound as words;

use crate::nodes::{Links, Listing, Node, Nodes, Spot, repeated};
use std::alloc::Global;
use std::sync::ledger::Ledger;
use step_count::Steps;
use ttm_base::{BufId, ItemList, Mem, NoMemory};

/// The number of lists: one for each memory type and priority.
pub const LISTS: usize = 12;

/// The first and the last member of a group in a list.
#[derive(Clone, Copy)]
pub struct Range {
    pub first: BufId,
    pub last: BufId,
}

/// Twelve rings of nodes, each through the end of its list, and the range of each group in each list.
#[derive(Drop)]
pub struct Rings {
    // The links of the ends of the lists: to the first and the last node.
    pub ends: ItemList<Links>,
    pub nodes: Nodes,
    // The ranges, ordered by group, and within a group by list.
    pub ranges: ItemList<Option<Range>>,
    pub groups: u32,
}

/// Which of the two links of a spot is meant.
#[derive(Clone, Copy)]
enum Way {
    Next,
    Prev,
}

// Returns the number of a memory type.
fn number_of_mem(mem: Mem) -> usize
    ensures number { result ≡ mem_number mem }
    ensures below { result < 3 }
{
    match mem {
        Mem::System => 0,
        Mem::Tt => 1,
        Mem::Vram => 2,
    }
}

/// Returns the number of the list of a listing among the twelve.
pub(crate) fn list_number(listing: Listing) -> usize
    requires { listing.prio < 4 }
    ensures number { result ≡ number_of listing }
    ensures below { result < 12 }
{
    4 * number_of_mem(listing.mem) + listing.prio as usize
}

// Returns the buffer of a spot, or `b` at the end of a list.
fn buffer_of(spot: Spot, b: BufId) -> BufId
    ensures { result ≡ words.buffer_of spot b }
{
    match spot {
        Spot::End(_) => b,
        Spot::Of(c) => c,
    }
}

/// Returns the buffer of a spot, or None at the end of a list.
pub(crate) fn buffer_in(spot: Spot) -> Option<BufId>
    ensures { result ≡ words.buffer_in spot }
{
    match spot {
        Spot::End(_) => None,
        Spot::Of(b) => Some(b),
    }
}

// Returns the range of a group after `b`, which was between `before` and `behind`, has left it. None means that no member is
// left.
fn narrowed(range: Range, b: BufId, before: BufId, behind: BufId) -> Option<Range>
    ensures { result ≡ words.narrowed range b before behind }
{
    if b.0 == range.first.0 {
        if b.0 == range.last.0 {
            None
        } else {
            Some(Range {
                first: behind,
                ..range
            })
        }
    } else if b.0 == range.last.0 {
        Some(Range {
            last: before,
            ..range
        })
    } else {
        Some(range)
    }
}

// Returns the range of a group, if it has one, after `b`, which had the links `links`, has left it.
fn narrowed_in(range: Option<Range>, b: BufId, links: Links) -> Option<Range>
    ensures { result ≡ words.narrowed_in range b (words.buffer_of links.prev b) (words.buffer_of links.next b) }
{
    match range {
        None => None,
        Some(range) => narrowed(range, b, buffer_of(links.prev, b), buffer_of(links.next, b)),
    }
}

// Returns the range of a group after `b` has joined it as the last member.
fn widened(range: Option<Range>, b: BufId) -> Range
    ensures { result ≡ words.widened range b }
{
    match range {
        None => Range { first: b, last: b },
        Some(range) => Range { last: b, ..range },
    }
}

// Returns twelve ends that are linked to themselves.
fn closed_ends(alloc: Global) -> Result<ItemList<Links>, NoMemory>
    ensures { IfOk result (λ ends. words.AreClosed 12 ends) }
{
    let mut ends = ItemList::new(alloc);
    for list in 0..LISTS {
        ends.push(Links {
            next: Spot::End(list),
            prev: Spot::End(list),
        })?;
    }
    Ok(ends)
}

impl Rings {
    ghost use Rattle.lru_bulk.specs.Lists.{nothing_listed, listing_in, list_at, taken_off, put_on, members_last, is_member, IsGroup};
    ghost use Rattle.lru_bulk.specs.Sound.{links_at, next_at, prev_at, listings_of, lists_of, order_of, range_for, ranges_left, ranges_joined, IsWhole};
    ghost use Rattle.lru_bulk.specs.Relinks.{IsSpot, SameRest, Tied, led};

    /// Returns rings without nodes, for `buffers` buffers and `groups` groups.
    pub(crate) fn new(alloc: Global, buffers: u32, groups: u32) -> Result<Rings, NoMemory>
        ensures sound { IfOk result (λ rings. IsWhole rings None) }
        ensures order { IfOk result (λ rings. order_of rings ≡ nothing_listed buffers groups) }
    {
        let ends = closed_ends(alloc)?;
        let nodes = Nodes::new(alloc, buffers)?;
        let ranges = repeated(alloc, LISTS * groups as usize, None)?;
        Ok(Rings {
            ends,
            nodes,
            ranges,
            groups,
        })
    }

    /// Returns the links of a spot. A walk knows which kind of spot it asks for, so that inlining removes the other case.
    #[inline(always)]
    pub(crate) fn links(&self, spot: Spot) -> Links
        requires { IsSpot self.now spot }
        ensures { result ≡ links_at self.now spot }
    {
        match spot {
            Spot::End(list) => self.ends.at(list),
            Spot::Of(b) => self.nodes.at(b).links,
        }
    }

    // Replaces the links of a spot.
    fn put_links(&mut self, spot: Spot, links: Links)
        requires { IsSpot self.old spot }
        ensures at { links_at self.new spot ≡ links }
        ensures others { (s : Spot) → s ≢ spot → links_at self.new s ≡ links_at self.old s }
        ensures rest { SameRest self.old self.new }
    {
        match spot {
            Spot::End(list) => self.ends.set(list, links),
            Spot::Of(b) => {
                let node = self.nodes.at(b);
                self.nodes.set(b, Node { links, ..node });
            }
        }
    }

    // Writes one link, and counts a step. Links change nowhere else.
    fn set_link<L: Ledger>(&mut self, at: Spot, way: Way, to: Spot, steps: &mut Steps<L>)
        requires { IsSpot self.old at }
        ensures at { links_at self.new at ≡ led (links_at self.old at) way to }
        ensures others { (s : Spot) → s ≢ at → links_at self.new s ≡ links_at self.old s }
        ensures rest { SameRest self.old self.new }
        ensures cost { steps.new ≡ steps.old + 1 }
    {
        let old = self.links(at);
        let links = match way {
            Way::Next => Links { next: to, ..old },
            Way::Prev => Links { prev: to, ..old },
        };
        self.put_links(at, links);
        steps.tick();
    }

    // Links `left` to `right`, and `right` back to `left`.
    pub(crate) fn tie<L: Ledger>(&mut self, left: Spot, right: Spot, steps: &mut Steps<L>)
        requires left { IsSpot self.old left }
        requires right { IsSpot self.old right }
        ensures tied { Tied (next_at self.old) (prev_at self.old) (next_at self.new) (prev_at self.new) left right }
        ensures rest { SameRest self.old self.new }
        ensures cost { steps.new ≡ steps.old + 2 }
    {
        self.set_link(left, Way::Next, right, steps);
        self.set_link(right, Way::Prev, left, steps);
    }

    // Returns the range of a group in a list, if it has one there.
    pub(crate) fn range(&self, group: Option<u32>, list: usize) -> Option<Range>
        requires group { IsGroup self.now.groups group }
        requires list { list < 12 }
        requires room { length self.now.ranges ≡ 12 * self.now.groups }
        ensures { result ≡ range_for self.now.ranges group list }
    {
        match group {
            None => None,
            Some(group) => self.ranges.at(group as usize * LISTS + list),
        }
    }

    // Updates the range of a group after `b`, which had the links `links`, has left it.
    pub(crate) fn narrow(&mut self, listing: Listing, b: BufId, links: Links)
        requires prio { listing.prio < 4 }
        requires group { IsGroup self.old.groups listing.group }
        requires room { length self.old.ranges ≡ 12 * self.old.groups }
        ensures { self.new ≡ record self.old { ranges = ranges_left self.old.ranges listing.group (number_of listing) b (words.buffer_of links.prev b) (words.buffer_of links.next b) } }
    {
        if let Some(group) = listing.group {
            let place = group as usize * LISTS + list_number(listing);
            let left = narrowed_in(self.ranges.at(place), b, links);
            self.ranges.set(place, left);
        }
    }

    // Updates the range of a group after `b` has joined it.
    pub(crate) fn widen(&mut self, listing: Listing, b: BufId)
        requires prio { listing.prio < 4 }
        requires group { IsGroup self.old.groups listing.group }
        requires room { length self.old.ranges ≡ 12 * self.old.groups }
        ensures { self.new ≡ record self.old { ranges = ranges_joined self.old.ranges listing.group (number_of listing) b } }
    {
        if let Some(group) = listing.group {
            let place = group as usize * LISTS + list_number(listing);
            let joined = widened(self.ranges.at(place), b);
            self.ranges.set(place, Some(joined));
        }
    }

    // Returns the spot after which the next member of the group is put: that of its last member, or else that of the last
    // node of the list.
    pub(crate) fn spot_before(&self, group: Option<u32>, list: usize) -> Spot
        requires group { IsGroup self.now.groups group }
        requires list { list < 12 }
        requires room { length self.now.ranges ≡ 12 * self.now.groups }
        requires ends { length self.now.ends ≡ 12 }
        ensures { result ≡ words.spot_before self.now (range_for self.now.ranges group list) list }
    {
        match self.range(group, list) {
            None => self.links(Spot::End(list)).prev,
            Some(range) => Spot::Of(range.last),
        }
    }
}
