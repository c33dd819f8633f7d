ghost use Rattle.std.specs.Prelude.{◌≡◌, ◌++◌, OnOk, map};
ghost use Rattle.journal_model.specs.scripts.Words.{span_word, spans_word};
ghost use Rattle.text_line.specs.Spaced.{behind_each};

use text_line::Line;
use ttm_base::{NoMemory, Span};

pub fn put_span(line: &mut Line, span: Span) -> Result<(), NoMemory>
    ensures { OnOk result (line.new ≡ line.old ++ span_word span) }
{
    line.put_number(u64::from(span.start))?;
    line.put_byte(b'-')?;
    line.put_number(u64::from(span.end))
}

pub fn put_spans(line: &mut Line, spans: &[Span]) -> Result<(), NoMemory>
    ensures { OnOk result (line.new ≡ line.old ++ spans_word spans.now) }
{
    match spans.split_first() {
        None => line.put_byte(b'-'),
        Some((first, rest)) => {
            put_span(line, *first)?;
            put_more_spans(line, rest)
        }
    }
}

/// Puts each span into `line`, a comma before it.
fn put_more_spans(line: &mut Line, spans: &[Span]) -> Result<(), NoMemory>
    ensures { OnOk result (line.new ≡ line.old ++ behind_each 44 (map span_word spans.now)) }
{
    for span in spans {
        line.put_byte(b',')?;
        put_span(line, *span)?;
    }
    Ok(())
}
