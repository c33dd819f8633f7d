ghost use Rattle.std.specs.Prelude.{◌≡◌, ◌<◌, ◌↔◌, Some, None, IsSome, IsTrue, IfOk, OnOk, OnErr, replicate, length, slice_index_or, slice_set};

use slab::Slab;
use std::alloc::Global;
use std::marker::Model;
use ttm_base::{BufId, ItemList, Mem, NoMemory};

/// How a buffer is listed: on the list of its memory type and priority, with its group.
#[derive(Clone, Copy)]
pub struct Listing {
    pub mem: Mem,
    pub prio: u32,
    pub group: Option<u32>,
}

/// A spot to which links lead: the end of a list, which is before its first node and after its last, or the node of a
/// buffer.
#[derive(Clone, Copy)]
pub enum Spot {
    End(usize),
    Of(BufId),
}

/// The links of a spot.
#[derive(Clone, Copy)]
pub struct Links {
    pub next: Spot,
    pub prev: Spot,
}

/// The node of a buffer.
#[derive(Clone, Copy)]
pub struct Node {
    pub listing: Listing,
    pub links: Links,
}

/// The nodes of buffers in a slab, seen as a list by the numbers of the buffers.
#[derive(Drop)]
pub struct Nodes {
    slab: Slab<Node>,
    // The key of the node of each buffer.
    keys: ItemList<Option<usize>>,
}

impl Model for Nodes {
    ghost use Rattle.std.specs.Prelude.{List, Option};
    ghost use Rattle.lru_bulk.specs.declared.nodes.Node.{Node as Kept};

    ghost Value = { List (Option Kept) };

    ghost use Rattle.lru_bulk.specs.Nodes.{nodes_of, IsKeyed};

    ghost view = { λ n. nodes_of n.slab n.keys };

    ghost invariant = { λ n. IsKeyed n.slab n.keys };
}

/// Returns a list of `count` copies of `item`.
pub(crate) fn repeated<T: Copy + Drop>(
    alloc: Global,
    count: usize,
    item: T,
) -> Result<ItemList<T>, NoMemory>
    ensures { IfOk result (λ list. list ≡ replicate count item) }
{
    let mut list = ItemList::new(alloc);
    for _done in 0..count {
        list.push(item)?;
    }
    Ok(list)
}

// Returns the key of the node of the buffer `b`.
fn key_of(keys: &ItemList<Option<usize>>, b: BufId) -> usize
    requires { IsSome (slice_index_or keys.now b.0 None) }
    ensures { slice_index_or keys.now b.0 None ≡ Some result }
{
    keys.at(b.0 as usize).unwrap()
}

impl Nodes {
    /// Returns nodes for `buffers` buffers, of which none has a node.
    pub(crate) fn new(alloc: Global, buffers: u32) -> Result<Nodes, NoMemory>
        ensures { IfOk result (λ nodes. nodes ≡ replicate buffers None) }
    {
        let keys = repeated(alloc, buffers as usize, None)?;
        Ok(Nodes {
            slab: Slab::new(alloc),
            keys,
        })
    }

    /// Gives the buffer `b` a node. Where memory is refused nothing changes.
    pub(crate) fn put(&mut self, b: BufId, node: Node) -> Result<(), NoMemory>
        requires known { b.0 < length self.old }
        requires absent { slice_index_or self.old b.0 None ≡ None }
        ensures ok { OnOk result (self.new ≡ slice_set self.old b.0 (Some node)) }
        ensures err { OnErr result (self.new ≡ self.old) }
    {
        let key = self.slab.insert(node)?;
        self.keys.set(b.0 as usize, Some(key));
        Ok(())
    }

    /// Removes the node of the buffer `b`.
    pub(crate) fn take(&mut self, b: BufId)
        requires { IsSome (slice_index_or self.old b.0 None) }
        ensures { self.new ≡ slice_set self.old b.0 None }
    {
        let key = key_of(&self.keys, b);
        self.slab.remove(key);
        self.keys.set(b.0 as usize, None);
    }

    /// Returns the number of buffers.
    pub(crate) fn len(&self) -> usize
        ensures { result ≡ length self.now }
    {
        self.keys.len()
    }

    /// Returns whether the buffer `b` has a node.
    pub(crate) fn has(&self, b: BufId) -> bool
        ensures { IsTrue result ↔ IsSome (slice_index_or self.now b.0 None) }
    {
        (b.0 as usize) < self.keys.len() && self.keys.at(b.0 as usize).is_some()
    }

    /// Returns the node of the buffer `b`.
    pub(crate) fn at(&self, b: BufId) -> Node
        requires { IsSome (slice_index_or self.now b.0 None) }
        ensures { slice_index_or self.now b.0 None ≡ Some result }
    {
        self.slab[key_of(&self.keys, b)]
    }

    /// Replaces the node of the buffer `b`.
    pub(crate) fn set(&mut self, b: BufId, node: Node)
        requires { IsSome (slice_index_or self.old b.0 None) }
        ensures { self.new ≡ slice_set self.old b.0 (Some node) }
    {
        let key = key_of(&self.keys, b);
        self.slab[key] = node;
    }
}
