//! Owners with their holdings, which are in a list, and a table that knows the position of the holding of each owner.
ghost use Rattle.std.specs.Prelude.{◌≡◌, ℕ, ◌+◌, ◌≤◌, ◌∷◌, ◌++◌, true, false, [], Some, None, OnOk, OnErr, is_some, length, if◌then◌else◌};
ghost use Rattle.std.specs.Option.{option_copied};
ghost use Rattle.std.specs.HashMap.{get_by, hash_map_len, spare};
ghost use Rattle.ttm_base.specs.declared.Owner.{Owner};
ghost use Rattle.ttm_base.specs.declared.Span.{Span};
ghost use Rattle.resource_core.specs.Places as keys;
ghost use Rattle.resource_core.specs.declared.holdings.OwnerKey.{OwnerKey};
ghost use Rattle.resource_core.specs.Places.{same_key, stands_at};
ghost use Rattle.resource_core.specs.Resources as words;
ghost use Rattle.resource_core.specs.Tied.{total};

use crate::holding::{Holding, OwnerKind};
use std::alloc::Global;
use std::collections::HashMap;
use std::marker::Model;
use ttm_base::{NoMemory, Owner, Spans};

/// An owner, as the key under which the table has it.
#[derive(Clone, Copy, PartialEq, Eq, Hash)]
struct OwnerKey {
    kind: OwnerKind,
    number: u64,
}

/// Returns the key of an owner.
fn key_of(owner: Owner) -> OwnerKey
    ensures { result ≡ keys.key_of owner }
{
    match owner {
        Owner::Live(buffer) => OwnerKey {
            kind: OwnerKind::Live,
            number: buffer.0 as u64,
        },
        Owner::Target(buffer) => OwnerKey {
            kind: OwnerKind::Target,
            number: buffer.0 as u64,
        },
        Owner::Ghost(number) => OwnerKey {
            kind: OwnerKind::Ghost,
            number,
        },
    }
}

/// The holdings of owners. The table has room for twice as many positions, so that an owner can be renamed without taking
/// memory.
#[derive(Drop)]
pub struct Holdings {
    held: Vec<Holding>,
    places: HashMap<OwnerKey, usize>,
}

impl Model for Holdings {
    ghost use Rattle.std.specs.Prelude.{List};
    ghost use Rattle.std.specs.HashMap.{get_by, hash_map_len};
    ghost use Rattle.resource_core.specs.declared.holding.Holding.{Holding};

    ghost Value = { List Holding };

    ghost use Rattle.resource_core.specs.Places.{ArePlaced, same_key};

    ghost view = { λ h. h.held.items };

    ghost invariant = { λ h. ArePlaced (λ key. get_by (same_key key) h.places) (hash_map_len h.places) h.held.items };
}

/// Returns the position of the holding of an owner, or None where it has none.
fn place_of(places: &HashMap<OwnerKey, usize>, owner: Owner) -> Option<usize>
    ensures { result ≡ get_by (same_key (keys.key_of owner)) places.now }
{
    places.get(&key_of(owner)).copied()
}

/// Returns the position of the holding of an owner that has one.
fn known_place(places: &HashMap<OwnerKey, usize>, owner: Owner) -> usize
    requires { is_some (get_by (same_key (keys.key_of owner)) places.now) ≡ true }
    ensures { get_by (same_key (keys.key_of owner)) places.now ≡ Some result }
{
    match place_of(places, owner) {
        Some(at) => at,
        None => unreachable!(),
    }
}

/// Puts the position of a holding into the table, which has the owner already or room for it.
fn put(places: &mut HashMap<OwnerKey, usize>, key: OwnerKey, at: usize)
    requires { get_by (same_key key) places.old ≡ None → 1 ≤ spare places.old }
    ensures each { (other : OwnerKey) → get_by (same_key other) places.new ≡ (if same_key key other then Some at else get_by (same_key other) places.old) }
    ensures len { hash_map_len places.new ≡ hash_map_len places.old + (if is_some (get_by (same_key key) places.old) then 0 else 1) }
    ensures room { spare places.old ≤ spare places.new + 1 }
{
    match places.insert(key, at) {
        Ok(_) => {}
        Err(_) => unreachable!(),
    }
}

/// Removes an owner from the table.
fn take_out(places: &mut HashMap<OwnerKey, usize>, key: OwnerKey)
    requires { is_some (get_by (same_key key) places.old) ≡ true }
    ensures each { (other : OwnerKey) → get_by (same_key other) places.new ≡ (if same_key key other then None else get_by (same_key other) places.old) }
    ensures len { hash_map_len places.new + 1 ≡ hash_map_len places.old }
    ensures room { spare places.old ≤ spare places.new }
{
    places.remove(&key);
}

/// Fills the table again from the holdings, in the room that it has.
fn place_all(places: &mut HashMap<OwnerKey, usize>, held: &[Holding])
    requires distinct { words.AreDistinct held.now }
    requires room { length held.now ≤ hash_map_len places.old + spare places.old }
    ensures each { (owner : Owner) → get_by (same_key (keys.key_of owner)) places.new ≡ stands_at owner held.now }
    ensures len { hash_map_len places.new ≡ length held.now }
{
    places.clear();
    for (at, holding) in held.iter().enumerate() {
        put(places, key_of(holding.owner), at);
    }
}

impl Holdings {
    /// Returns no holdings.
    pub(crate) fn new(alloc: Global) -> Holdings
        ensures { result ≡ [] }
    {
        Holdings {
            held: Vec::new(alloc),
            places: HashMap::new(alloc),
        }
    }

    /// Lends the holdings, in the order of their positions.
    pub(crate) fn items(&self) -> &[Holding]
        ensures { result.now ≡ self.now }
    {
        self.held.as_slice()
    }

    /// Returns whether the owner has a holding.
    pub(crate) fn holds(&self, owner: Owner) -> bool
        ensures { result ≡ words.holds owner self.now }
    {
        place_of(&self.places, owner).is_some()
    }

    /// Lends the spans of an owner, or returns None where it has no holding.
    pub(crate) fn spans_of(&self, owner: Owner) -> Option<&Spans>
        ensures { option_copied result ≡ words.kept_by owner self.now }
    {
        let at = place_of(&self.places, owner)?;
        Some(&self.held[at].spans)
    }

    /// Adds a holding at the end. Where memory is refused nothing is changed.
    pub(crate) fn add(&mut self, owner: Owner, spans: Spans) -> Result<(), NoMemory>
        requires { words.holds owner self.old ≡ false }
        ensures ok { OnOk result (self.new ≡ self.old ++ record { owner = owner; spans = spans } ∷ []) }
        ensures err { OnErr result (self.new ≡ self.old) }
    {
        let at = self.places.len();
        self.places.reserve(at + 1)?;
        self.held.push(Holding { owner, spans })?;
        put(&mut self.places, key_of(owner), at);
        Ok(())
    }

    /// Gives the holding of the owner `from` to the owner `to`, at the same position. It takes no memory.
    pub(crate) fn rename(&mut self, from: Owner, to: Owner)
        requires from { words.holds from self.old ≡ true }
        requires to { words.holds to self.old ≡ false }
        ensures { self.new ≡ words.renamed from to self.old }
    {
        let at = known_place(&self.places, from);
        self.held[at].owner = to;
        if self.places.capacity() == self.places.len() {
            place_all(&mut self.places, &self.held);
            return;
        }
        let old = key_of(from);
        let new = key_of(to);
        take_out(&mut self.places, old);
        put(&mut self.places, new, at);
    }

    /// Removes the holding of an owner and returns its spans. The last holding takes its position. It takes no memory.
    pub(crate) fn remove(&mut self, owner: Owner) -> Spans
        requires { words.holds owner self.old ≡ true }
        ensures left { self.new ≡ words.without_owner owner self.old }
        ensures spans { (weight : Span → ℕ) → total weight (words.all_spans self.old) ≡ total weight result + total weight (words.all_spans self.new) }
    {
        let at = known_place(&self.places, owner);
        let spans = self.held.swap_remove(at).spans;
        take_out(&mut self.places, key_of(owner));
        match self.held.get(at) {
            Some(moved) => put(&mut self.places, key_of(moved.owner), at),
            None => {}
        }
        spans
    }
}
