//! The steps of a request: how it changes each mapping that it meets.
ghost use Rattle.std.specs.Prelude.{◌≡◌, ◌<◌, ◌++◌, [], OnOk, OnErr, map, filter, option_map, option_to_list};
ghost use Rattle.journal_model.specs.marks.Spaces as words;
ghost use Rattle.journal_model.specs.marks.Spaces.{does_meet, map_step};
ghost use Rattle.law_legal.specs.law_spaces.Rising.{IsRising};
ghost use Rattle.gpu_spaces.specs.Kept.{regions_in, region_of};

use crate::mappings::{Mapping, Mappings, around, mapping_at};
use journal_model::{VStep, VSteps};
use ttm_base::{NoMemory, Span};

/// Returns the part of pages before a range, if there is one.
fn part_before(range: Span, pages: Span) -> Option<Span>
    ensures { result ≡ words.part_before range pages }
{
    if pages.start >= range.start {
        return None;
    }
    Some(Span {
        start: pages.start,
        end: pages.end.min(range.start),
    })
}

/// Returns the part of pages after a range, if there is one.
fn part_after(range: Span, pages: Span) -> Option<Span>
    ensures { result ≡ words.part_after range pages }
{
    if pages.end <= range.end {
        return None;
    }
    Some(Span {
        start: pages.start.max(range.end),
        end: pages.end,
    })
}

/// Returns the step by which a request for a range changes a mapping that meets it.
fn step_at(range: Span, mapping: Mapping) -> VStep
    ensures { result ≡ words.step_at range (region_of mapping) }
{
    let span = mapping.span;
    if range.start <= span.start && span.end <= range.end {
        return VStep::Unmap { span };
    }
    VStep::Remap {
        span,
        before: part_before(range, span),
        after: part_after(range, span),
    }
}

/// Appends the steps of a request to `out`. Where memory is refused some of them may be there.
fn push_steps(
    mappings: &Mappings,
    range: Span,
    new: Option<Mapping>,
    out: &mut VSteps,
) -> Result<(), NoMemory>
    requires rising { IsRising (regions_in mappings.now) }
    requires some { range.start < range.end }
    ensures { OnOk result (out.new ≡ out.old ++ (map (words.step_at range) (filter (does_meet range) (regions_in mappings.now)) ++ map map_step (option_to_list (option_map region_of new)))) }
{
    let first = match around(mappings, range.start) {
        Some(mapping) => mapping.span.start,
        None => range.start,
    };
    for (start, rest) in mappings.range(first..range.end) {
        out.push(step_at(range, mapping_at(*start, *rest)))?;
    }
    if let Some(mapping) = new {
        out.push(VStep::Map {
            span: mapping.span,
            b: mapping.b,
            off: mapping.off,
        })?;
    }
    Ok(())
}

/// Puts the steps of a request into `out`, which stays empty where memory is refused.
pub(crate) fn list_steps(
    mappings: &Mappings,
    range: Span,
    new: Option<Mapping>,
    out: &mut VSteps,
) -> Result<(), NoMemory>
    requires rising { IsRising (regions_in mappings.now) }
    requires some { range.start < range.end }
    requires empty { out.old ≡ [] }
    ensures ok { OnOk result (out.new ≡ map (words.step_at range) (filter (does_meet range) (regions_in mappings.now)) ++ map map_step (option_to_list (option_map region_of new))) }
    ensures err { OnErr result (out.new ≡ []) }
{
    if push_steps(mappings, range, new, out).is_err() {
        out.clear();
        return Err(NoMemory);
    }
    Ok(())
}
