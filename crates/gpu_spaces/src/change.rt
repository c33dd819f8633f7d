//! How a request changes the mappings.
ghost use Rattle.std.specs.Prelude.{◌≡◌, ℕ, ◌+◌, ◌-◌, ◌<◌, ◌≤◌, IsSome, IfSome, OnOk, OnErr, None, option_map, option_to_list};
ghost use Rattle.law_legal.specs.law_spaces.Sides.{sides};
ghost use Rattle.gpu_spaces.specs.Kept.{regions_in, region_of};
ghost use Rattle.gpu_spaces.specs.Regions.{starting, head_at, tail_at, over, set_at, IsOrdered, IsKept};

use crate::mappings::{Mapping, Mappings, around, clear, put, take_out};
use ttm_base::{NoMemory, Span};

/// Returns the part of a mapping before a page, if there is one.
fn head(mapping: Option<Mapping>, page: u32) -> Option<Mapping>
    ensures { option_map region_of result ≡ head_at page (option_map region_of mapping) }
{
    let mapping = mapping?;
    if mapping.span.start >= page {
        return None;
    }
    let span = Span {
        start: mapping.span.start,
        end: page,
    };
    Some(Mapping { span, ..mapping })
}

/// Returns the part of a mapping from a page on, if the mapping begins before that page.
fn tail(mapping: Option<Mapping>, page: u32) -> Option<Mapping>
    requires page { IfSome mapping (λ m. page ≤ m.span.end) }
    requires small { IfSome mapping (λ m. m.off + (m.span.end - m.span.start) ≤ 4096) }
    ensures { option_map region_of result ≡ tail_at page (option_map region_of mapping) }
{
    let mapping = mapping?;
    if mapping.span.start >= page {
        return None;
    }
    Some(Mapping {
        span: Span {
            start: page,
            end: mapping.span.end,
        },
        b: mapping.b,
        off: mapping.off + (page - mapping.span.start),
    })
}

/// Replaces the mapping that begins where `mapping` does.
fn replace(mappings: &mut Mappings, mapping: Mapping)
    requires { IsSome (starting mapping.span.start (regions_in mappings.old)) }
    ensures left { (q : ℕ) → starting q (regions_in mappings.new) ≡ over (Some (region_of mapping)) (λ p. starting p (regions_in mappings.old)) q }
    ensures ordered { IsOrdered (regions_in mappings.new) }
{
    match put(mappings, mapping) {
        Ok(()) => {}
        Err(_) => unreachable!(),
    }
}

/// Puts the mapping `new` at the page `page`, or removes the one there. Where memory is refused nothing changes.
fn set(mappings: &mut Mappings, page: u32, new: Option<Mapping>) -> Result<(), NoMemory>
    requires { IfSome new (λ m. m.span.start ≡ page) }
    ensures ok { OnOk result ((q : ℕ) → starting q (regions_in mappings.new) ≡ set_at page (option_map region_of new) (λ p. starting p (regions_in mappings.old)) q) }
    ensures err { OnErr result (regions_in mappings.new ≡ regions_in mappings.old) }
    ensures ordered { IsOrdered (regions_in mappings.new) }
{
    match new {
        Some(mapping) => put(mappings, mapping),
        None => {
            take_out(mappings, page);
            Ok(())
        }
    }
}

/// Puts in the two mappings that take memory: the part that is left after the range, and the new mapping at its start. Where
/// memory is refused nothing changes.
fn put_both(
    mappings: &mut Mappings,
    tail: Option<Mapping>,
    page: u32,
    new: Option<Mapping>,
) -> Result<(), NoMemory>
    requires at_page { IfSome new (λ m. m.span.start ≡ page) }
    requires fresh { IfSome tail (λ m. starting m.span.start (regions_in mappings.old) ≡ None) }
    requires ordered { IsOrdered (regions_in mappings.old) }
    ensures ok { OnOk result ((q : ℕ) → starting q (regions_in mappings.new) ≡ set_at page (option_map region_of new) (over (option_map region_of tail) (λ p. starting p (regions_in mappings.old))) q) }
    ensures err { OnErr result (regions_in mappings.new ≡ regions_in mappings.old) }
{
    let Some(tail) = tail else {
        return set(mappings, page, new);
    };
    put(mappings, tail)?;
    if let Err(wanted) = set(mappings, page, new) {
        take_out(mappings, tail.span.start);
        return Err(wanted);
    }
    Ok(())
}

/// Gives the pages of a range to the mapping `new`, or unmaps them. Where memory is refused nothing changes.
pub(crate) fn change(
    mappings: &mut Mappings,
    range: Span,
    new: Option<Mapping>,
) -> Result<(), NoMemory>
    requires kept { IsKept (regions_in mappings.old) }
    requires some { range.start < range.end }
    requires new { IfSome new (λ m. m.span ≡ range) }
    ensures ok { OnOk result (regions_in mappings.new ≡ sides range (option_to_list (option_map region_of new)) (regions_in mappings.old)) }
    ensures err { OnErr result (regions_in mappings.new ≡ regions_in mappings.old) }
{
    let head = head(around(mappings, range.start), range.start);
    let tail = tail(around(mappings, range.end), range.end);
    put_both(mappings, tail, range.start, new)?;
    if let Some(head) = head {
        replace(mappings, head);
    }
    let inside = Span {
        start: range.start + 1,
        end: range.end,
    };
    clear(mappings, inside);
    Ok(())
}
