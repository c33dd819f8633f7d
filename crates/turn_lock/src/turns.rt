//! The lock itself.
ghost use Rattle.std.specs.Prelude.{◌≡◌, ◌≢◌, ℕ, ◌+◌, ◌<◌, ◌≤◌, ◌^◌, [], ◌∷◌, ◌++◌, Some, None, IfOk, IsTrue, length, replicate, All, ◌↔◌};
ghost use mathlib.Core.List.{IsPrefix};
ghost use Rattle.turn_lock.specs.Growing.{Grows};
ghost use Rattle.turn_lock.specs.declared.Stage.TheVariants.{Idle, Waiting, Called, Holding};
ghost use Rattle.turn_lock.specs.Turning.{staged, fenced, told, joined, longer, start, Once, Took, IsDone, IsFree, IsHolder, IsSame, IsWithin};

use super::plays::{Advance, Call, Draw, Look, Merge, Peek, Publish, Raise, Settle, Tell};
use super::{Handoff, Lanes, Pass};
use atomic_table::{Refused, Table};
use std::alloc::{AllocError, Global};
use std::hint::spin_loop;
use std::snapshot::Snapshot;
use std::sync::Wait;
use ttm_base::{Logged, NoMemory};

const TICKET: usize = 0;

const SERVED: usize = 1;

const LENGTH: usize = 2;

/// The number of looks at the number served before a caller sleeps.
const LOOKS: u64 = 200;

/// A lock of a value, which callers hold in turn.
#[derive(Drop)]
pub struct Turns<V: Logged> {
    table: Lanes<V>,
    contexts: u32,
    handoff: Handoff,
    ghost sized: { (table.shared.table_id.words ≡ contexts + 3) × (table.shared.table_id.slots ≡ 1) × (table.shared.key.1 ≡ contexts) },
}

/// The value, for one turn. It has to be given back.
pub struct Held<V> {
    value: V,
}

impl<V> Held<V> {
    ghost use Rattle.std.specs.Borrow.{Lends, sem};
    ghost use Rattle.turn_lock.specs.contracts.turns.Held.{the_row};

    pub fn value(&mut self) -> &mut V
        ensures* writes_back { sem 𝓛 (Lends (the_row V.row) V.row self.entry result (λ w. record { value = w })) }
        ensures value { result.now ≡ self.old.value }
    {
        &mut self.value
    }
}

impl<V: Logged> Turns<V> {
    ghost use Rattle.turn_lock.specs.Locks.{lock_id, context_count};

    pub fn new(alloc: Global, value: V, contexts: u32) -> Result<(Turns<V>, Pass<V>), NoMemory>
    where
        V: Drop,
        ensures { IfOk result (λ t. (t.1.table_id ≡ lock_id t.0) × (t.1.me ≡ (start V.list V.root V.done value, [])) × (context_count t.0 ≡ contexts)) }
    {
        let count = value.count();
        let Ok(words) = first_words(alloc, count, contexts) else {
            return Err(NoMemory);
        };
        let about = (Snapshot::of(&value), contexts);
        let mut slots = Vec::new(alloc);
        if slots.push(Some(value)).is_err() {
            return Err(NoMemory);
        }
        match Table::new(alloc, words.as_slice(), slots, &about) {
            Ok((table, pass)) => Ok((
                Turns {
                    table,
                    contexts,
                    handoff: Handoff::new(),
                },
                pass,
            )),
            Err(_) => Err(NoMemory),
        }
    }

    /// Returns the number of contexts that was given to `new`.
    pub fn contexts(&self) -> u32
        ensures { result ≡ context_count self.now }
    {
        self.contexts
    }

    /// Lends the handoff, by which callers take turns in batches.
    pub fn handoff(&self) -> &Handoff {
        &self.handoff
    }

    /// Returns a second pass, which has seen what `pass` has seen.
    pub fn split(&self, pass: &mut Pass<V>) -> Pass<V>
        requires own { pass.old.table_id ≡ lock_id self.now }
        requires free { IsFree pass.old }
        ensures same { IsSame pass.old pass.new × (pass.new.me ≡ pass.old.me) }
        ensures second { (result.table_id ≡ pass.old.table_id) × (result.me ≡ (told pass.old.me.0, [])) }
    {
        self.table.shared.split_seat::<Tell>(pass)
    }

    /// Adds to `pass` what `other` has seen.
    pub fn join(&self, pass: &mut Pass<V>, other: Pass<V>)
        requires own { (pass.old.table_id ≡ lock_id self.now) × (other.table_id ≡ lock_id self.now) }
        requires free { IsFree pass.old × IsFree other }
        ensures same { IsSame pass.old pass.new × (pass.new.me ≡ (joined pass.old.me.0 other.me.0, [])) }
        ensures seen { IsPrefix pass.old.me.0.seen pass.new.me.0.seen × IsPrefix other.me.0.seen pass.new.me.0.seen }
        ensures once { Once pass.new.me.0.own }
        ensures within { IsWithin pass.new.me.0.seen pass.new.me.0.own }
    {
        self.table.shared.join_seat::<Merge>(pass, other);
        self.table.shared.load::<Settle>(pass, TICKET);
    }

    fn draw<R: Wait>(&self, rt: &R, pass: &mut Pass<V>) -> u64
        requires own { pass.old.table_id ≡ lock_id self.now }
        requires free { IsFree pass.old }
        ensures { IsSame pass.old pass.new × (pass.new.me ≡ (staged pass.old.me.0 (Waiting result), [])) }
    {
        for _ in rt.forever() {
            let number = self.table.shared.peek(TICKET);
            if number < u64::MAX {
                let found = self
                    .table
                    .shared
                    .compare_exchange::<Draw>(pass, TICKET, number, number + 1);
                if found == number {
                    return number;
                }
            } else {
                // No number is left: this waits for ever.
                self.table.shared.park(rt, TICKET, u32::MAX);
            }
        }
        unreachable!()
    }

    // Pauses between two looks at the number served. After some looks it sleeps for as long as this number is served.
    fn rest<R: Wait>(&self, rt: &R, served: u64, looks: u64) {
        if looks < LOOKS {
            spin_loop();
        } else {
            let low = (served % (1 << 32)) as u32;
            self.table.shared.park(rt, SERVED, low);
        }
    }

    fn look<R: Wait>(&self, rt: &R, pass: &mut Pass<V>, number: u64)
        requires own { pass.old.table_id ≡ lock_id self.now }
        requires waits { (pass.old.me.0.stage ≡ Waiting number) × (pass.old.me.1 ≡ []) }
        ensures { IsSame pass.old pass.new × Took V.list V.root V.done number pass.old.me pass.new.me }
    {
        let mut looks = 0u64;
        for _ in rt.forever() {
            let served = self.table.shared.load::<Look>(pass, SERVED);
            if served == number {
                return;
            }
            looks = looks.saturating_add(1);
            self.rest(rt, served, looks);
        }
        unreachable!()
    }

    /// Waits for a turn, and returns the value for it.
    pub fn take<R: Wait>(&self, rt: &R, pass: &mut Pass<V>) -> Held<V>
        requires own { pass.old.table_id ≡ lock_id self.now }
        requires free { IsFree pass.old }
        ensures same { IsSame pass.old pass.new × IsHolder pass.new }
        ensures before { IsPrefix pass.old.me.0.seen (V.list result.value) }
        ensures seen { pass.new.me.0.seen ≡ V.list result.value }
        ensures root { (pass.new.me.0.root ≡ Some (V.root result.value)) × ((r : _) → pass.old.me.0.root ≡ Some r → V.root result.value ≡ r) }
        ensures own { (pass.new.me.0.own ≡ pass.old.me.0.own) × Once pass.new.me.0.own }
        ensures within { IsWithin pass.old.me.0.seen pass.new.me.0.own }
        ensures fences { (pass.new.me.0.fences ≡ pass.old.me.0.fences) × All (λ f. f.1 ≤ V.done (V.list result.value) f.0) pass.new.me.0.fences }
    {
        let number = self.draw(rt, pass);
        self.look(rt, pass, number);
        let Some(value) = self.table.shared.exchange(pass, 0, None) else {
            unreachable!()
        };
        Held { value }
    }

    /// Gives the value back, with at most one entry more than it had.
    pub fn give(&self, pass: &mut Pass<V>, held: Held<V>)
        requires own { pass.old.table_id ≡ lock_id self.now }
        requires holder { IsHolder pass.old }
        requires grows { Grows pass.old.me.0.seen (V.list held.value) }
        requires root { pass.old.me.0.root ≡ Some (V.root held.value) }
        ensures same { IsSame pass.old pass.new × IsFree pass.new }
        ensures seen { pass.new.me.0.seen ≡ V.list held.value }
        ensures root { pass.new.me.0.root ≡ pass.old.me.0.root }
        ensures none_made { V.list held.value ≡ pass.old.me.0.seen → pass.new.me.0.own ≡ pass.old.me.0.own }
        ensures one_made { (e : _) → V.list held.value ≡ pass.old.me.0.seen ++ e ∷ [] → pass.new.me.0.own ≡ pass.old.me.0.own ++ length pass.old.me.0.seen ∷ [] }
        ensures once { Once pass.new.me.0.own }
        ensures within { IsWithin pass.new.me.0.seen pass.new.me.0.own }
        ensures fences { pass.new.me.0.fences ≡ pass.old.me.0.fences }
    {
        let Held { value } = held;
        let count = value.count();
        let lent = self.table.shared.exchange(pass, 0, Some(value));
        let None = lent else { unreachable!() };
        self.table.shared.store::<Publish>(pass, LENGTH, count);
        let number = self.table.shared.fetch_add::<Advance>(pass, SERVED, 1);
        // A caller that draws a number after this look finds it served.
        if self.table.shared.peek(TICKET) != number.wrapping_add(1) {
            self.table.shared.wake_all(SERVED);
        }
    }

    fn call<R: Wait>(&self, rt: &R, pass: &mut Pass<V>, number: u64)
        requires own { pass.old.table_id ≡ lock_id self.now }
        requires waits { (pass.old.me.0.stage ≡ Waiting number) × (pass.old.me.1 ≡ []) }
        ensures { IsSame pass.old pass.new × (pass.new.me ≡ (staged pass.old.me.0 (Called number), [])) }
    {
        for _ in rt.forever() {
            let served = self.table.shared.load::<Call>(pass, SERVED);
            if number == served {
                return;
            }
            self.rest(rt, served, LOOKS);
        }
        unreachable!()
    }

    /// Waits for a last turn, and returns the value.
    pub fn close<R: Wait>(self, rt: &R, mut pass: Pass<V>) -> V
        requires own { pass.table_id ≡ lock_id self }
        requires free { IsFree pass }
        ensures before { IsPrefix pass.me.0.seen (V.list result) }
        ensures root { (r : _) → pass.me.0.root ≡ Some r → V.root result ≡ r }
        ensures own { Once pass.me.0.own × IsWithin pass.me.0.seen pass.me.0.own }
        ensures fences { All (λ f. f.1 ≤ V.done (V.list result) f.0) pass.me.0.fences }
    {
        let number = self.draw(rt, &mut pass);
        self.call(rt, &mut pass, number);
        let Turns {
            table,
            contexts: _,
            handoff: _,
        } = self;
        let mut closed = table.close_with(pass);
        let slot = closed.take(0);
        closed.free();
        let Some(value) = slot else { unreachable!() };
        value
    }

    /// Returns whether the job `num` of the context `ctx` is done, as far as the fence word of the context says. True means
    /// that it is.
    pub fn peek_fence(&self, pass: &mut Pass<V>, ctx: u32, num: u64) -> bool
        requires own { pass.old.table_id ≡ lock_id self.now }
        requires inside { ctx < context_count self.now }
        ensures same { IsSame pass.old pass.new }
        ensures found { (n : ℕ) × (pass.new.me ≡ (fenced pass.old.me.0 ctx n, pass.old.me.1)) × (IsTrue result ↔ (num ≤ n)) × All (λ f. f.0 ≡ ctx → f.1 ≤ n) pass.old.me.0.fences }
    {
        self.table.shared.load::<Peek>(pass, ctx as usize + 3) >= num
    }

    /// Raises the fence word of the context `ctx` to `num`, unless it is greater already.
    pub fn raise_fence(&self, pass: &mut Pass<V>, ctx: u32, num: u64)
        requires own { pass.old.table_id ≡ lock_id self.now }
        requires inside { ctx < context_count self.now }
        requires done { num ≤ V.done pass.old.me.0.seen ctx }
        ensures { IsSame pass.old pass.new × (pass.new.me ≡ (fenced pass.old.me.0 ctx num, pass.old.me.1)) }
    {
        self.table
            .shared
            .fetch_max::<Raise>(pass, ctx as usize + 3, num);
    }
}

fn first_words(alloc: Global, count: u64, contexts: u32) -> Result<Vec<u64>, AllocError>
    ensures { IfOk result (λ v. v.items ≡ 0 ∷ 0 ∷ count ∷ replicate contexts 0) }
{
    let mut words = Vec::new(alloc);
    words.push(0)?;
    words.push(0)?;
    words.push(count)?;
    for _i in 0..contexts {
        words.push(0)?;
    }
    Ok(words)
}
