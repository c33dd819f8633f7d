ghost use Rattle.std.specs.Prelude.{◌≡◌, ◌<◌, ◌^◌};
ghost use Rattle.resource_core.specs.Resources as words;
ghost use Rattle.buddy_manager.specs.Held as lengths;

use ttm_base::{Owner, Span, Spans};

/// An owner with the spans that it holds.
#[derive(Drop)]
pub struct Holding {
    pub owner: Owner,
    pub spans: Spans,
}

/// The kind of an owner: a live buffer, the target of a move that isn't done, or a ghost.
#[derive(Clone, Copy, PartialEq, Eq, Hash)]
pub enum OwnerKind {
    Live,
    Target,
    Ghost,
}

/// Returns whether the owner is of the kind `kind`.
fn is_of(kind: OwnerKind, owner: Owner) -> bool
    ensures { result ≡ words.is_of kind owner }
{
    match (kind, owner) {
        (OwnerKind::Live, Owner::Live(_)) => true,
        (OwnerKind::Target, Owner::Target(_)) => true,
        (OwnerKind::Ghost, Owner::Ghost(_)) => true,
        _ => false,
    }
}

/// Returns the number of pages of spans.
fn pages_of(spans: &[Span]) -> u32
    requires { lengths.pages_of spans.now < 2 ^ 32 }
    ensures { result ≡ lengths.pages_of spans.now }
{
    let mut pages = 0;
    for span in spans {
        pages += span.end.saturating_sub(span.start);
    }
    pages
}

/// Returns the number of pages of a holding if its owner is of the kind `kind`, else 0.
fn pages_if(kind: OwnerKind, holding: &Holding) -> u32
    requires { words.pages_if kind holding.now < 2 ^ 32 }
    ensures { result ≡ words.pages_if kind holding.now }
{
    if is_of(kind, holding.owner) {
        pages_of(holding.spans.items())
    } else {
        0
    }
}

/// Returns the number of pages that the owners of the kind `kind` hold.
pub(crate) fn pages_by(held: &[Holding], kind: OwnerKind) -> u32
    requires { words.pages_by kind held.now < 2 ^ 32 }
    ensures { result ≡ words.pages_by kind held.now }
{
    let mut pages = 0;
    for holding in held {
        pages += pages_if(kind, holding);
    }
    pages
}
