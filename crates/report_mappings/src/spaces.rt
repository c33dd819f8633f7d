//! The part on address spaces: of each request its steps.
ghost use Rattle.std.specs.Prelude.{◌≡◌, ◌++◌, ◌∷◌, [], true, IsTrue, OnOk, codes, decimal, flat_map, option_to_list};
ghost use Rattle.std.specs.List.{list_any};
ghost use Rattle.journal_model.specs.statements.Complete.{thread_numbers};
ghost use Rattle.journal_model.specs.marks.Marks as marks;
ghost use Rattle.journal_model.specs.reports.ReportText.{request_lines, spaces_part, step_words, thread_steps};
ghost use Rattle.journal_model.specs.marks.Spaces.{regions_after, steps_of};
ghost use Rattle.journal_model.specs.scripts.Words.{line as line_of, name_of, span_word, spans_word, thread_word};
ghost use Rattle.text_line.specs.Spaced.{spaced_out};
ghost use Rattle.report_mappings.specs.Requests as words;
ghost use Rattle.report_mappings.specs.Requests.{are_in_spaces, is_in_space};

use crate::spans::{put_span, put_spans};
use gpu_spaces::Space;
use journal_model::{Mark, MarkKind, Script, VStep, VSteps};
use std::alloc::Global;
use text_line::{Line, name_of, put_numbered};
use ttm_base::{BufId, NoMemory, Span};

/// Puts a word and the range of a step into `line`.
fn put_range(line: &mut Line, word: &[u8], range: Span) -> Result<(), NoMemory>
    ensures { OnOk result (line.new ≡ line.old ++ spaced_out (word.now ∷ span_word range ∷ [])) }
{
    line.word(word)?;
    line.put_byte(b' ')?;
    put_span(line, range)
}

/// Puts what stays of a mapping into `line`: the ranges `before` and `after` the one that goes.
fn put_kept(line: &mut Line, before: Option<Span>, after: Option<Span>) -> Result<(), NoMemory>
    ensures { OnOk result (line.new ≡ line.old ++ spans_word (option_to_list before ++ option_to_list after)) }
{
    match (before, after) {
        (Some(before), Some(after)) => put_spans(line, &[before, after]),
        (Some(before), None) => put_spans(line, &[before]),
        (None, Some(after)) => put_spans(line, &[after]),
        (None, None) => put_spans(line, &[]),
    }
}

fn put_remap(
    line: &mut Line,
    range: Span,
    before: Option<Span>,
    after: Option<Span>,
) -> Result<(), NoMemory>
    ensures { OnOk result (line.new ≡ line.old ++ spaced_out (codes "remap" ∷ span_word range ∷ codes "keep" ∷ spans_word (option_to_list before ++ option_to_list after) ∷ [])) }
{
    put_range(line, b"remap", range)?;
    line.word(b"keep")?;
    line.put_byte(b' ')?;
    put_kept(line, before, after)
}

fn put_map(
    line: &mut Line,
    script: &Script,
    range: Span,
    b: BufId,
    off: u32,
) -> Result<(), NoMemory>
    ensures { OnOk result (line.new ≡ line.old ++ spaced_out (codes "map" ∷ span_word range ∷ name_of script.now b ∷ decimal off ∷ [])) }
{
    put_range(line, b"map", range)?;
    line.word(name_of(script, b))?;
    line.number(u64::from(off))
}

/// Puts the words of `step` into `line`.
fn put_step(line: &mut Line, script: &Script, step: &VStep) -> Result<(), NoMemory>
    ensures { OnOk result (line.new ≡ line.old ++ spaced_out (step_words script.now step.now)) }
{
    match step {
        VStep::Unmap { span } => put_range(line, b"unmap", *span),
        VStep::Remap {
            span,
            before,
            after,
        } => put_remap(line, *span, *before, *after),
        VStep::Map { span, b, off } => put_map(line, script, *span, *b, *off),
    }
}

/// Puts the line of a step into `line`. The step is one of the request numbered `number` of the thread.
fn put_step_line(
    line: &mut Line,
    script: &Script,
    thread: u64,
    number: u64,
    step: &VStep,
) -> Result<(), NoMemory>
    ensures { OnOk result (line.new ≡ line.old ++ line_of (thread_word thread ∷ decimal number ∷ step_words script.now step.now)) }
{
    put_numbered(line, b't', thread)?;
    line.number(number)?;
    put_step(line, script, step)?;
    line.end_line()
}

/// Puts the lines of the request numbered `number` into `line`.
fn put_request(
    line: &mut Line,
    script: &Script,
    thread: u64,
    number: u64,
    steps: &[VStep],
) -> Result<(), NoMemory>
    ensures { OnOk result (line.new ≡ line.old ++ request_lines script.now thread (number, steps.now)) }
{
    for step in steps {
        put_step_line(line, script, thread, number, step)?;
    }
    Ok(())
}

fn is_request(kind: &MarkKind) -> bool
    ensures { result ≡ marks.is_request kind.now }
{
    matches!(kind, MarkKind::Vmap { .. } | MarkKind::Vunmap { .. })
}

/// Returns whether `mark` is a request of the thread numbered `thread`.
fn is_asked_by(thread: u64, mark: &Mark) -> bool
    ensures { result ≡ words.is_asked_by thread mark.now }
{
    u64::from(mark.thread) == thread && is_request(&mark.kind)
}

fn is_vmap(kind: &MarkKind) -> bool
    ensures { result ≡ marks.is_vmap kind.now }
{
    matches!(kind, MarkKind::Vmap { .. })
}

/// Returns whether the script has a line that maps pages of an address space.
pub fn has_vmap(script: &Script) -> bool
    ensures { result ≡ list_any (λ m. marks.is_vmap m.kind) script.now.marks }
{
    script.marks.items().iter().any(|mark| is_vmap(&mark.kind))
}

/// Answers `request` in `space`, and puts its steps into `steps`.
fn answer(space: &mut Space, request: &MarkKind, steps: &mut VSteps) -> Result<(), NoMemory>
    requires request { marks.is_request request.now ≡ true }
    requires inside { IsTrue (is_in_space request.now) }
    requires no_steps { steps.old ≡ [] }
    ensures mappings { OnOk result (space.new ≡ regions_after space.old request.now) }
    ensures steps { OnOk result (steps.new ≡ steps_of space.old request.now) }
{
    match request {
        MarkKind::Vmap { va, n, b, off } => space.map(*va, *n, *b, *off, steps),
        MarkKind::Vunmap { va, n } => space.unmap(*va, *n, steps),
        _ => Ok(()),
    }
}

/// Puts the steps of a thread's requests into `line`.
fn put_thread_steps(
    line: &mut Line,
    alloc: Global,
    script: &Script,
    thread: u64,
) -> Result<(), NoMemory>
    requires requests { IsTrue (are_in_spaces script.now) }
    ensures { OnOk result (line.new ≡ line.old ++ thread_steps script.now thread) }
{
    let mut space = Space::new(alloc);
    let mut steps = VSteps::new(alloc);
    let mut number = 1;
    for mark in script.marks.items() {
        if is_asked_by(thread, mark) {
            steps.clear();
            answer(&mut space, &mark.kind, &mut steps)?;
            put_request(line, script, thread, number, steps.items())?;
            number += 1;
        }
    }
    Ok(())
}

/// Puts the steps of all threads into `line`.
fn put_all_steps(line: &mut Line, alloc: Global, script: &Script) -> Result<(), NoMemory>
    requires requests { IsTrue (are_in_spaces script.now) }
    ensures { OnOk result (line.new ≡ line.old ++ flat_map (thread_steps script.now) (thread_numbers script.now)) }
{
    for index in 0..script.threads.len() {
        put_thread_steps(line, alloc, script, index as u64 + 1)?;
    }
    Ok(())
}

/// Puts the report's part on address spaces into `line`, which is empty where no line maps pages of one. A step is found in logarithmic
/// time.
pub fn put_spaces(line: &mut Line, alloc: Global, script: &Script) -> Result<(), NoMemory>
    requires requests { IsTrue (are_in_spaces script.now) }
    ensures { OnOk result (line.new ≡ line.old ++ spaces_part script.now) }
{
    if !has_vmap(script) {
        return Ok(());
    }
    line.put(b"spaces\n")?;
    put_all_steps(line, alloc, script)
}
