ghost use Rattle.std.specs.Prelude.{◌≡◌, ℕ, ◌+◌, ◌^◌, ◌<◌, ◌≤◌, ◌∷◌, ◌++◌, Bool, true, false, List, [], Option, Some, None, IfOk, OnOk, OnErr, length};
ghost use Rattle.ttm_base.specs.declared.Place.{Place};
ghost use Rattle.ttm_base.specs.declared.Span.{Span};
ghost use Rattle.ttm_base.specs.Holes.{is_free_beside};
ghost use Rattle.buddy_manager.specs.Held.{with_blocks, without_all, pages_of, AllBy, AreHeld, IsApart};
ghost use Rattle.buddy_manager.specs.Taking.{AreTaken};
ghost use Rattle.resource_core.specs.Resources.{holds};

use crate::TakeFault;
use crate::holding::{OwnerKind, pages_by};
use crate::holdings::Holdings;
use crate::manager::{Lengths, Manager};
use std::alloc::Global;
use std::marker::Model;
use ttm_base::{JobId, NoMemory, Owner, Place, Spans};

/// A manager of spans of pages that are held, with a rule by which a request takes more.
pub trait SpanManager: Drop {
    /// The number of pages.
    ghost size: { Self → ℕ };

    /// The spans that are held, in rising order.
    ghost held: { Self → List Span };

    /// The spans that a request takes among the free pages of a size, for a number of pages, an alignment, and a place.
    ghost choice: { (ℕ → Bool) → ℕ → ℕ → ℕ → Place → Option (List Span) };

    /// The greatest number of pages.
    ghost most: { ℕ };

    /// Returns a manager of `pages` pages, all of them free.
    fn with_pages(alloc: Global, pages: u32) -> Result<Self, NoMemory>
        ensures size { IfOk result (λ manager. size manager ≡ pages) }
        ensures held { IfOk result (λ manager. held manager ≡ []) }
        ensures most { IfOk result (λ manager. pages ≤ most) };

    /// Takes the spans of the choice, and puts them into `out`. After an error nothing is changed.
    fn take(
        &mut self,
        pages: u32,
        align: u32,
        place: &Place,
        out: &mut Spans,
    ) -> Result<(), TakeFault>
        requires empty { out.old ≡ [] }
        requires small { size self.old ≤ most }
        requires some { 1 ≤ pages }
        requires aligned { 1 ≤ align }
        requires most_aligned { align ≤ 4096 }
        ensures size { size self.new ≡ size self.old }
        ensures ok { OnOk result (choice (is_free_beside (held self.old)) (size self.old) pages align place.now ≡ Some out.new) }
        ensures held { OnOk result (held self.new ≡ with_blocks out.new (held self.old)) }
        ensures none { result ≡ Err TakeFault.NoRoom → choice (is_free_beside (held self.old)) (size self.old) pages align place.now ≡ None }
        ensures same { OnErr result (held self.new ≡ held self.old) }
        ensures empty { OnErr result (out.new ≡ []) };

    /// Puts the spans of the choice into `out`, and takes none of them.
    fn choose(
        &mut self,
        pages: u32,
        align: u32,
        place: &Place,
        out: &mut Spans,
    ) -> Result<(), TakeFault>
        requires empty { out.old ≡ [] }
        requires small { size self.old ≤ most }
        requires some { 1 ≤ pages }
        requires aligned { 1 ≤ align }
        requires most_aligned { align ≤ 4096 }
        ensures size { size self.new ≡ size self.old }
        ensures held { held self.new ≡ held self.old }
        ensures ok { OnOk result (choice (is_free_beside (held self.old)) (size self.old) pages align place.now ≡ Some out.new) }
        ensures none { result ≡ Err TakeFault.NoRoom → choice (is_free_beside (held self.old)) (size self.old) pages align place.now ≡ None }
        ensures empty { OnErr result (out.new ≡ []) };

    /// Holds spans of free pages. Where memory is refused nothing is changed.
    fn hold(&mut self, spans: &Spans) -> Result<(), NoMemory>
        requires apart { IsApart (held self.old) }
        requires within { AllBy (size self.old) (held self.old) }
        requires free { AreTaken (is_free_beside (held self.old)) (size self.old) spans.now }
        ensures size { size self.new ≡ size self.old }
        ensures ok { OnOk result (held self.new ≡ with_blocks spans.now (held self.old)) }
        ensures err { OnErr result (held self.new ≡ held self.old) };

    /// Gives back spans that are held. It takes no memory.
    fn put_back(&mut self, spans: &Spans)
        requires apart { IsApart (held self.old) }
        requires held { AreHeld spans.now (held self.old) }
        ensures size { size self.new ≡ size self.old }
        ensures held { held self.new ≡ without_all spans.now (held self.old) };

    /// Returns how many pages are free.
    fn free_pages(&self) -> u32
        ensures { result + pages_of (held self.now) ≡ size self.now };

    ghost most_fits: { most < 2 ^ 32 };

    /// A choice for at least one page has a span.
    ghost takes_some: { (free : ℕ → Bool) (size pages align : ℕ) (place : Place) (out : List Span) → 1 ≤ pages → choice free size pages align place ≡ Some out → 1 ≤ length out };

    /// A choice has only free pages, each of them once.
    ghost takes_free: { (free : ℕ → Bool) (size pages align : ℕ) (place : Place) (out : List Span) → size ≤ most → 1 ≤ pages → 1 ≤ align → choice free size pages align place ≡ Some out → AreTaken free size out };
}

/// What is asked of the choice.
#[derive(Clone, Copy, PartialEq, Eq)]
struct Request {
    pages: u32,
    align: u32,
    place: Place,
}

/// The pages of a memory type, by the owners that hold them, in the spans of a span manager.
#[derive(Drop)]
pub struct Room<M: SpanManager> {
    manager: M,
    held: Holdings,
    move_fence: Option<JobId>,
    /// The last request that found no room, so that it isn't searched again while nothing is taken or given back.
    in_vain: Option<Request>,
}

impl<M: SpanManager> Model for Room<M> {
    ghost use Rattle.std.specs.Prelude.{◌≤◌};
    ghost use Rattle.ttm_base.specs.Holes.{is_free_beside};
    ghost use Rattle.resource_core.specs.Resources.{Resources};

    ghost Value = { Resources };

    ghost use Rattle.resource_core.specs.Tied.{IsTied, FindsNoRoom};

    ghost view = { λ r. record { size = M.size r.manager; held = r.held; move_fence = r.move_fence } };

    ghost invariant = { λ r. (IsTied (M.size r.manager) M.most (M.held r.manager) r.held) × (FindsNoRoom (M.choice (is_free_beside (M.held r.manager)) (M.size r.manager)) r.in_vain) };
}

/// Returns whether the request is the one that is kept.
fn is_kept(kept: Option<Request>, request: Request) -> bool
    ensures { result ≡ true → kept ≡ Some request }
{
    kept == Some(request)
}

/// Returns the request to keep after a fault: this one if it found no room, otherwise the one before.
fn noted(kept: Option<Request>, request: Request, fault: TakeFault) -> Option<Request>
    ensures room { fault ≡ TakeFault.NoRoom → result ≡ Some request }
    ensures memory { fault ≡ TakeFault.NoMemory → result ≡ kept }
{
    match fault {
        TakeFault::NoRoom => Some(request),
        TakeFault::NoMemory => kept,
    }
}

/// Adds a holding with a copy of spans. Where memory is refused nothing is changed.
fn add_copy(held: &mut Holdings, owner: Owner, spans: &Spans) -> Result<(), NoMemory>
    requires { holds owner held.old ≡ false }
    ensures ok { OnOk result (held.new ≡ held.old ++ record { owner = owner; spans = spans.now } ∷ []) }
    ensures err { OnErr result (held.new ≡ held.old) }
{
    let spans = spans.copy()?;
    held.add(owner, spans)
}

impl<M: SpanManager> Room<M> {
    /// Returns a room of `pages` pages that no owner holds, without a move job.
    pub fn new(alloc: Global, pages: u32) -> Result<Room<M>, NoMemory>
        ensures { IfOk result (λ room. room ≡ record { size = pages; held = []; move_fence = None }) }
    {
        let manager = M::with_pages(alloc, pages)?;
        Ok(Room {
            manager,
            held: Holdings::new(alloc),
            move_fence: None,
            in_vain: None,
        })
    }
}

impl<M: SpanManager> Manager for Room<M> {
    ghost resources = { λ room. room };

    ghost choice = { λ room. M.choice };

    fn take(
        &mut self,
        alloc: Global,
        owner: Owner,
        pages: u32,
        align: u32,
        place: &Place,
    ) -> Result<Spans, TakeFault> {
        let request = Request {
            pages,
            align,
            place: *place,
        };
        if is_kept(self.in_vain, request) {
            return Err(TakeFault::NoRoom);
        }
        let mut spans = Spans::new(alloc);
        if let Err(fault) = self.manager.take(pages, align, place, &mut spans) {
            self.in_vain = noted(self.in_vain, request, fault);
            return Err(fault);
        }
        self.in_vain = None;
        match add_copy(&mut self.held, owner, &spans) {
            Ok(()) => Ok(spans),
            Err(NoMemory) => {
                self.manager.put_back(&spans);
                Err(TakeFault::NoMemory)
            }
        }
    }

    fn hold(&mut self, owner: Owner, spans: &Spans) -> Result<(), NoMemory> {
        self.manager.hold(spans)?;
        self.in_vain = None;
        match add_copy(&mut self.held, owner, spans) {
            Ok(()) => Ok(()),
            Err(NoMemory) => {
                self.manager.put_back(spans);
                Err(NoMemory)
            }
        }
    }

    fn choose(
        &mut self,
        alloc: Global,
        pages: u32,
        align: u32,
        place: &Place,
    ) -> Result<Spans, TakeFault> {
        let request = Request {
            pages,
            align,
            place: *place,
        };
        if is_kept(self.in_vain, request) {
            return Err(TakeFault::NoRoom);
        }
        let mut spans = Spans::new(alloc);
        if let Err(fault) = self.manager.choose(pages, align, place, &mut spans) {
            self.in_vain = noted(self.in_vain, request, fault);
            return Err(fault);
        }
        Ok(spans)
    }

    fn pass(&mut self, from: Owner, to: Owner) {
        self.held.rename(from, to);
    }

    fn give(&mut self, owner: Owner) {
        self.in_vain = None;
        let spans = self.held.remove(owner);
        self.manager.put_back(&spans);
    }

    fn holds(&self, owner: Owner) -> bool {
        self.held.holds(owner)
    }

    fn spans_of(&self, owner: Owner) -> Option<&Spans> {
        self.held.spans_of(owner)
    }

    fn lengths(&self) -> Lengths {
        let free = self.manager.free_pages();
        let held = self.held.items();
        let live = pages_by(held, OwnerKind::Live);
        let targets = pages_by(held, OwnerKind::Target);
        let ghosts = pages_by(held, OwnerKind::Ghost);
        Lengths {
            free,
            live,
            targets,
            ghosts,
        }
    }

    fn laws(&self) {
        let _ = &self.held;
    }

    fn move_fence(&self) -> Option<JobId> {
        self.move_fence
    }

    fn set_move_fence(&mut self, job: JobId) {
        self.move_fence = Some(job);
    }
}
