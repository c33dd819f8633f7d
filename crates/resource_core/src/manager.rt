ghost use Rattle.std.specs.Prelude.{◌≡◌, ℕ, ◌+◌, ◌<◌, ◌≤◌, ◌∷◌, ◌++◌, Bool, true, false, List, [], Option, Some, None, IfOk, OnOk, OnErr, All, count_by, length};
ghost use Rattle.std.specs.Option.{option_copied};
ghost use Rattle.ttm_base.specs.Holes.{has_page};
ghost use Rattle.ttm_base.specs.declared.Place.{Place};
ghost use Rattle.ttm_base.specs.declared.Span.{Span};
ghost use Rattle.buddy_manager.specs.Taking.{AreTaken};
ghost use Rattle.resource_core.specs.Resources.{Resources, holds, is_free, kept_by, renamed, without_owner, all_spans, count_free, pages_by, AreDistinct, HaveSpans};

use crate::holding::OwnerKind;
use std::alloc::Global;
use ttm_base::{JobId, NoMemory, Owner, Place, Spans};

/// The reason why a request got no pages.
#[derive(Clone, Copy, Debug, PartialEq, Eq)]
pub enum TakeFault {
    /// The choice finds no spans among the free pages.
    NoRoom,
    NoMemory,
}

/// The number of pages that are free, and of those that are held by live buffers, by targets of moves that aren't done, and
/// by ghosts.
#[derive(Clone, Copy, PartialEq, Eq)]
pub struct Lengths {
    pub free: u32,
    pub live: u32,
    pub targets: u32,
    pub ghosts: u32,
}

/// The pages of a memory type, by the owners that hold them.
pub trait Manager {
    /// The resources as which the manager is seen.
    ghost resources: { Self → Resources };

    /// The rule of the manager, which no call changes: the spans that a request takes among the free pages of a size, for a
    /// number of pages, an alignment, and a place.
    ghost choice: { Self → (ℕ → Bool) → ℕ → ℕ → ℕ → Place → Option (List Span) };

    /// Takes `pages` pages that a place reaches for an owner, by the manager's choice: from a multiple of `align` pages on,
    /// if the manager heeds alignments. The owner's holding comes last. After an error nothing is changed.
    fn take(
        &mut self,
        alloc: Global,
        owner: Owner,
        pages: u32,
        align: u32,
        place: &Place,
    ) -> Result<Spans, TakeFault>
        requires fresh { holds owner (resources self.old).held ≡ false }
        requires some { 1 ≤ pages }
        requires aligned { 1 ≤ align }
        requires most { align ≤ 4096 }
        ensures ok { IfOk result (λ spans. choice self.old (is_free (resources self.old).held) (resources self.old).size pages align place.now ≡ Some spans) }
        ensures held { IfOk result (λ spans. (resources self.new).held ≡ (resources self.old).held ++ record { owner = owner; spans = spans } ∷ []) }
        ensures none { result ≡ Err TakeFault.NoRoom → choice self.old (is_free (resources self.old).held) (resources self.old).size pages align place.now ≡ None }
        ensures same { OnErr result ((resources self.new).held ≡ (resources self.old).held) }
        ensures size { (resources self.new).size ≡ (resources self.old).size }
        ensures fence { (resources self.new).move_fence ≡ (resources self.old).move_fence }
        ensures rule { choice self.new ≡ choice self.old };

    /// Holds spans of free pages, apart from each other, for an owner. Its holding comes last. Where memory is refused
    /// nothing is changed.
    fn hold(&mut self, owner: Owner, spans: &Spans) -> Result<(), NoMemory>
        requires fresh { holds owner (resources self.old).held ≡ false }
        requires some { 1 ≤ length spans.now }
        requires free { AreTaken (is_free (resources self.old).held) (resources self.old).size spans.now }
        ensures ok { OnOk result (resources self.new ≡ record (resources self.old) { held = (resources self.old).held ++ record { owner = owner; spans = spans.now } ∷ [] }) }
        ensures err { OnErr result (resources self.new ≡ resources self.old) }
        ensures rule { choice self.new ≡ choice self.old };

    /// Returns the spans that `take` would take, and takes none. `hold` may be called with them. The manager stays as it
    /// was.
    fn choose(
        &mut self,
        alloc: Global,
        pages: u32,
        align: u32,
        place: &Place,
    ) -> Result<Spans, TakeFault>
        requires some { 1 ≤ pages }
        requires aligned { 1 ≤ align }
        requires most { align ≤ 4096 }
        ensures ok { IfOk result (λ spans. choice self.old (is_free (resources self.old).held) (resources self.old).size pages align place.now ≡ Some spans) }
        ensures some { IfOk result (λ spans. 1 ≤ length spans) }
        ensures free { IfOk result (λ spans. AreTaken (is_free (resources self.old).held) (resources self.old).size spans) }
        ensures none { result ≡ Err TakeFault.NoRoom → choice self.old (is_free (resources self.old).held) (resources self.old).size pages align place.now ≡ None }
        ensures same { resources self.new ≡ resources self.old }
        ensures rule { choice self.new ≡ choice self.old };

    /// Passes the pages of the owner `from` to the owner `to`. It takes no memory.
    fn pass(&mut self, from: Owner, to: Owner)
        requires from { holds from (resources self.old).held ≡ true }
        requires to { holds to (resources self.old).held ≡ false }
        ensures held { resources self.new ≡ record (resources self.old) { held = renamed from to (resources self.old).held } }
        ensures rule { choice self.new ≡ choice self.old };

    /// Frees the pages of an owner. The last holding takes the position of its holding. It takes no memory.
    fn give(&mut self, owner: Owner)
        requires { holds owner (resources self.old).held ≡ true }
        ensures held { resources self.new ≡ record (resources self.old) { held = without_owner owner (resources self.old).held } }
        ensures rule { choice self.new ≡ choice self.old };

    /// Returns whether the owner holds pages.
    fn holds(&self, owner: Owner) -> bool
        ensures { result ≡ holds owner (resources self.now).held };

    /// Lends the spans that the owner holds, or returns None where it holds none.
    fn spans_of(&self, owner: Owner) -> Option<&Spans>
        ensures { option_copied result ≡ kept_by owner (resources self.now).held };

    /// Returns how many pages are free, and how many the owners of each kind hold.
    fn lengths(&self) -> Lengths
        ensures free { result.free ≡ count_free (is_free (resources self.now).held) (resources self.now).size }
        ensures live { result.live ≡ pages_by OwnerKind.Live (resources self.now).held }
        ensures targets { result.targets ≡ pages_by OwnerKind.Target (resources self.now).held }
        ensures ghosts { result.ghosts ≡ pages_by OwnerKind.Ghost (resources self.now).held }
        ensures sum { result.free + result.live + result.targets + result.ghosts ≡ (resources self.now).size };

    /// Tells what holds of every manager: no page is in two spans, every span has pages and ends within the size, no owner
    /// has two holdings, and each holding has a span. The call does nothing: its contract is the law.
    fn laws(&self)
        ensures once { (page : ℕ) → count_by (has_page page) (all_spans (resources self.now).held) ≤ 1 }
        ensures some { All (λ s. s.start < s.end) (all_spans (resources self.now).held) }
        ensures within { All (λ s. s.end ≤ (resources self.now).size) (all_spans (resources self.now).held) }
        ensures owners { AreDistinct (resources self.now).held }
        ensures spans { HaveSpans (resources self.now).held };

    /// Returns the move job, which is the last one that was set, or None where none was.
    fn move_fence(&self) -> Option<JobId>
        ensures { result ≡ (resources self.now).move_fence };

    /// Keeps a job as the move job, instead of the one before.
    fn set_move_fence(&mut self, job: JobId)
        ensures fence { resources self.new ≡ record (resources self.old) { move_fence = Some job } }
        ensures rule { choice self.new ≡ choice self.old };
}
