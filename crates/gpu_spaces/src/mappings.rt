//! Mappings by their first pages, in a balanced map.
ghost use Rattle.std.specs.Prelude.{◌≡◌, ℕ, ◌+◌, ◌<◌, ◌≤◌, ◌==◌, IfSome, IfNone, OnOk, OnErr, Some, None, false, find, option_map, if◌then◌else◌};
ghost use Rattle.std.specs.BTreeMap.{ContainsKey};
ghost use Rattle.std.specs.Ordering.{nat_cmp};
ghost use Rattle.ttm_base.specs.Holes.{has_page};
ghost use Rattle.law_legal.specs.law_spaces.Rising.{IsRising};
ghost use Rattle.gpu_spaces.specs.Kept.{regions_in, region_at, region_of};
ghost use Rattle.gpu_spaces.specs.Regions.{starting, over, set_at, IsOrdered};

use std::collections::BTreeMap;
use ttm_base::{BufId, NoMemory, Span};

/// A mapping: pages of the space, and the buffer whose pages from `off` on they are mapped to.
#[derive(Clone, Copy)]
pub(crate) struct Mapping {
    pub span: Span,
    pub b: BufId,
    pub off: u32,
}

/// A mapping without its first page, which is its key.
#[derive(Clone, Copy)]
pub(crate) struct Rest {
    pub end: u32,
    pub b: BufId,
    pub off: u32,
}

pub(crate) type Mappings = BTreeMap<u32, Rest>;

/// Returns the mapping that has the page `page`, if there is one.
pub(crate) fn around(mappings: &Mappings, page: u32) -> Option<Mapping>
    requires { IsRising (regions_in mappings.now) }
    ensures { option_map region_of result ≡ find (λ r. has_page page r.span) (regions_in mappings.now) }
{
    let Some((start, rest)) = mappings.range(..=page).next_back() else {
        return None;
    };
    if rest.end <= page {
        return None;
    }
    Some(mapping_at(*start, *rest))
}

/// Returns the mapping that is kept under the page `start`.
pub(crate) fn mapping_at(start: u32, rest: Rest) -> Mapping
    ensures { region_of result ≡ region_at (start, rest) }
{
    let span = Span {
        start,
        end: rest.end,
    };
    Mapping {
        span,
        b: rest.b,
        off: rest.off,
    }
}

/// Puts a mapping in, and replaces the one that begins where it does. Where memory is refused nothing changes.
pub(crate) fn put(mappings: &mut Mappings, mapping: Mapping) -> Result<(), NoMemory>
    ensures ok { OnOk result ((q : ℕ) → starting q (regions_in mappings.new) ≡ over (Some (region_of mapping)) (λ p. starting p (regions_in mappings.old)) q) }
    ensures absent { OnErr result (starting mapping.span.start (regions_in mappings.old) ≡ None) }
    ensures err { OnErr result (regions_in mappings.new ≡ regions_in mappings.old) }
    ensures ordered { IsOrdered (regions_in mappings.new) }
{
    let rest = Rest {
        end: mapping.span.end,
        b: mapping.b,
        off: mapping.off,
    };
    mappings.insert(mapping.span.start, rest)?;
    Ok(())
}

/// Removes the mapping that begins at the page `start`, if there is one.
pub(crate) fn take_out(mappings: &mut Mappings, start: u32)
    ensures left { (q : ℕ) → starting q (regions_in mappings.new) ≡ set_at start None (λ p. starting p (regions_in mappings.old)) q }
    ensures ordered { IsOrdered (regions_in mappings.new) }
{
    mappings.remove(&start);
}

/// Removes the mappings that begin in a range.
pub(crate) fn clear(mappings: &mut Mappings, range: Span)
    requires { range.start ≤ range.end }
    ensures left { (q : ℕ) → starting q (regions_in mappings.new) ≡ (if has_page q range then None else starting q (regions_in mappings.old)) }
    ensures ordered { IsOrdered (regions_in mappings.new) }
{
    while let Some(start) = first_in(mappings, range) {
        mappings.remove(&start);
    }
}

/// Returns the first page of the first mapping that begins in a range, if there is one.
fn first_in(mappings: &Mappings, range: Span) -> Option<u32>
    requires { range.start ≤ range.end }
    ensures some { IfSome result (ContainsKey nat_cmp mappings.now) }
    ensures inside { IfSome result (λ k. (range.start ≤ k) × (k < range.end)) }
    ensures none { IfNone result ((q : ℕ) → range.start ≤ q → q < range.end → starting q (regions_in mappings.now) ≡ None) }
    ensures ordered { IsOrdered (regions_in mappings.now) }
{
    match mappings.range(range.start..range.end).next() {
        Some((start, _)) => Some(*start),
        None => None,
    }
}
