ghost use Rattle.std.specs.Prelude.{◌≡◌, ◌+◌, ◌++◌, ◌∷◌, [], OnOk, codes, decimal, length, map, unwrap_or};
ghost use Rattle.journal_model.specs.reports.EntryText.{cause_row_word, cause_word, deny_word, dry_word, entry_line, kind_words, left_word, piece_words, shown_words, why_word};
ghost use Rattle.journal_model.specs.scripts.Words.{actor_word, hex, listed, mem_word, name_of, spans_word};
ghost use Rattle.journal_model.specs.reports.ReportText.{answer_words};
ghost use Rattle.text_line.specs.Spaced.{behind_each, spaced_out};

use journal_model::{Cause, CauseRow, DryWhy, Entry, Kind, Left, Script, Shown, Why};
use report_mappings::spans::put_spans;
use text_line::{Line, mem_word, name_of, put_actor, put_hex, put_numbered};
use ttm_base::{BufId, Deny, Mem, NoMemory, Span};

/// Makes `line` the line of `entry`, which is numbered `number`.
pub(crate) fn make_entry_line(
    line: &mut Line,
    script: &Script,
    number: u64,
    entry: &Entry,
) -> Result<(), NoMemory>
    ensures { OnOk result (line.new ≡ entry_line script.now (number, entry.now)) }
{
    line.clear();
    line.put_number(number)?;
    line.put_byte(b' ')?;
    put_actor(line, entry.who)?;
    put_kind(line, script, &entry.kind)?;
    line.end_line()
}

/// Puts an entry's text without its number and actor into `line`.
fn put_kind(line: &mut Line, script: &Script, kind: &Kind) -> Result<(), NoMemory>
    ensures { OnOk result (line.new ≡ line.old ++ spaced_out (kind_words script.now kind.now)) }
{
    match kind {
        Kind::Ticket { s } => put_count(line, b" ticket ", s.0),
        Kind::Reserve { b } => put_named(line, b" reserve ", script, *b),
        Kind::Backoff { b, s } => put_numbers(line, b" backoff ", script, *b, &[s.0]),
        Kind::New { b } => put_named(line, b" new ", script, *b),
        Kind::Free { b, g } => put_numbers(line, b" free ", script, *b, &[*g]),
        Kind::Take { b, mem, spans } => put_take(line, script, *b, *mem, spans.items()),
        Kind::Untake { b, mem } => put_mem(line, b" untake ", script, *b, *mem),
        Kind::Populate { b, page, frame } => {
            put_pages(line, b" populate ", script, *b, &[*page, *frame])
        }
        Kind::SwapIn {
            b,
            page,
            slot,
            frame,
        } => put_pages(line, b" swapin ", script, *b, &[*page, *slot, *frame]),
        Kind::Depopulate { b } => put_depopulate(line, script, *b),
        Kind::Bind { b } => put_named(line, b" bind ", script, *b),
        Kind::Unbind { b } => put_named(line, b" unbind ", script, *b),
        Kind::Move { b, mem, num, left } => put_move(line, script, *b, *mem, *num, *left),
        Kind::Catch { b, why } => put_catch(line, script, *b, *why),
        Kind::Loose { b } => put_named(line, b" loose ", script, *b),
        Kind::Skip { b } => put_named(line, b" skip ", script, *b),
        Kind::Dry { b, k, why } => put_dry(line, script, *b, *k, why),
        Kind::SwapOut { b, page, slot } => {
            put_pages(line, b" swapout ", script, *b, &[*page, *slot])
        }
        Kind::NoPages { b } => put_named(line, b" nopages ", script, *b),
        Kind::Arm { engine, num } => put_arm(line, *engine, *num),
        Kind::Packet { num, k, piece } => put_packet(line, *num, *k, piece.items()),
        Kind::Done { num } => put_count(line, b" done ", *num),
        Kind::Reap { g } => put_count(line, b" reap ", *g),
        Kind::Bulk { group } => put_count(line, b" bulk ", u64::from(*group)),
        Kind::Result { shown } => put_result(line, shown),
        Kind::Refused { deny } => put_refused(line, *deny),
    }
}

/// Puts `word`, with a space before and after it, and a number into `line`.
#[inline(always)]
fn put_count(line: &mut Line, word: &[u8], number: u64) -> Result<(), NoMemory>
    ensures { OnOk result (line.new ≡ line.old ++ word.now ++ decimal number) }
{
    line.put(word)?;
    line.put_number(number)
}

/// Puts `word`, with a space before and after it, and the name of buffer `b` into `line`.
#[inline(always)]
fn put_named(line: &mut Line, word: &[u8], script: &Script, b: BufId) -> Result<(), NoMemory>
    ensures { OnOk result (line.new ≡ line.old ++ word.now ++ name_of script.now b) }
{
    line.put(word)?;
    line.put(name_of(script, b))
}

/// Puts `word`, with a space before and after it, the name of buffer `b`, and `numbers` into `line`.
#[inline(always)]
fn put_numbers(
    line: &mut Line,
    word: &[u8],
    script: &Script,
    b: BufId,
    numbers: &[u64],
) -> Result<(), NoMemory>
    ensures { OnOk result (line.new ≡ line.old ++ (word.now ++ name_of script.now b ++ spaced_out (map decimal numbers.now))) }
{
    put_named(line, word, script, b)?;
    for number in numbers {
        line.number(*number)?;
    }
    Ok(())
}

/// Puts `word`, with a space before and after it, the name of buffer `b`, and the numbers of pages, frames or slots, into `line`.
#[inline(always)]
fn put_pages(
    line: &mut Line,
    word: &[u8],
    script: &Script,
    b: BufId,
    numbers: &[u32],
) -> Result<(), NoMemory>
    ensures { OnOk result (line.new ≡ line.old ++ (word.now ++ name_of script.now b ++ spaced_out (map decimal numbers.now))) }
{
    put_named(line, word, script, b)?;
    for number in numbers {
        line.number(u64::from(*number))?;
    }
    Ok(())
}

/// Puts `word`, with a space before and after it, the name of buffer `b`, and a memory type into `line`.
#[inline(always)]
fn put_mem(
    line: &mut Line,
    word: &[u8],
    script: &Script,
    b: BufId,
    mem: Mem,
) -> Result<(), NoMemory>
    ensures { OnOk result (line.new ≡ line.old ++ (word.now ++ name_of script.now b ++ 32 ∷ mem_word mem)) }
{
    put_named(line, word, script, b)?;
    line.word(mem_word(mem))
}

fn put_depopulate(line: &mut Line, script: &Script, b: BufId) -> Result<(), NoMemory>
    ensures { OnOk result (line.new ≡ line.old ++ spaced_out (codes "depopulate" ∷ name_of script.now b ∷ [])) }
{
    line.word(b"depopulate")?;
    line.word(name_of(script, b))
}

fn put_take(
    line: &mut Line,
    script: &Script,
    b: BufId,
    mem: Mem,
    spans: &[Span],
) -> Result<(), NoMemory>
    ensures { OnOk result (line.new ≡ line.old ++ spaced_out (codes "take" ∷ name_of script.now b ∷ mem_word mem ∷ spans_word spans.now ∷ [])) }
{
    put_mem(line, b" take ", script, b, mem)?;
    line.put_byte(b' ')?;
    put_spans(line, spans)
}

fn put_move(
    line: &mut Line,
    script: &Script,
    b: BufId,
    mem: Mem,
    num: u64,
    left: Left,
) -> Result<(), NoMemory>
    ensures { OnOk result (line.new ≡ line.old ++ spaced_out (codes "move" ∷ name_of script.now b ∷ mem_word mem ∷ decimal num ∷ left_word left ∷ [])) }
{
    put_mem(line, b" move ", script, b, mem)?;
    line.number(num)?;
    match left {
        Left::Now => line.word(b"now"),
        Left::Ghost(number) => line.number(number),
    }
}

fn put_catch(line: &mut Line, script: &Script, b: BufId, why: Why) -> Result<(), NoMemory>
    ensures { OnOk result (line.new ≡ line.old ++ spaced_out (codes "catch" ∷ name_of script.now b ∷ why_word why ∷ [])) }
{
    put_named(line, b" catch ", script, b)?;
    line.word(match why {
        Why::Vram => b"vram",
        Why::Tt => b"tt",
        Why::Swap => b"swap",
    })
}

fn put_dry(line: &mut Line, script: &Script, b: BufId, k: u32, why: &DryWhy) -> Result<(), NoMemory>
    ensures { OnOk result (line.new ≡ line.old ++ spaced_out (codes "dry" ∷ name_of script.now b ∷ decimal k ∷ dry_word script.now why.now ∷ [])) }
{
    put_pages(line, b" dry ", script, b, &[k])?;
    line.put_byte(b' ')?;
    match why {
        DryWhy::Short => line.put(b"short"),
        DryWhy::Of(rows) => put_causes(line, script, rows.items()),
    }
}

fn put_causes(line: &mut Line, script: &Script, rows: &[CauseRow]) -> Result<(), NoMemory>
    ensures { OnOk result (line.new ≡ line.old ++ listed (map (cause_row_word script.now) rows.now)) }
{
    match rows.split_first() {
        None => line.put_byte(b'-'),
        Some((first, rest)) => {
            put_cause(line, script, *first)?;
            put_more_causes(line, script, rest)
        }
    }
}

/// Puts each cause into `line`, a comma before it.
fn put_more_causes(line: &mut Line, script: &Script, rows: &[CauseRow]) -> Result<(), NoMemory>
    ensures { OnOk result (line.new ≡ line.old ++ behind_each 44 (map (cause_row_word script.now) rows.now)) }
{
    for row in rows {
        line.put_byte(b',')?;
        put_cause(line, script, *row)?;
    }
    Ok(())
}

fn put_cause(line: &mut Line, script: &Script, row: CauseRow) -> Result<(), NoMemory>
    ensures { OnOk result (line.new ≡ line.old ++ cause_row_word script.now row) }
{
    line.put(name_of(script, row.b))?;
    line.put_byte(b':')?;
    match row.cause {
        Cause::Pinned => line.put(b"pinned"),
        Cause::Reserved(stamp) => put_reserved(line, stamp.0),
        Cause::Outside => line.put(b"outside"),
        Cause::Skipped => line.put(b"skipped"),
    }
}

fn put_reserved(line: &mut Line, stamp: u64) -> Result<(), NoMemory>
    ensures { OnOk result (line.new ≡ line.old ++ (codes "reserved:" ++ decimal stamp)) }
{
    line.put(b"reserved:")?;
    line.put_number(stamp)
}

fn put_arm(line: &mut Line, engine: u32, num: u64) -> Result<(), NoMemory>
    ensures { OnOk result (line.new ≡ line.old ++ spaced_out (codes "arm" ∷ (codes "e" ++ decimal engine) ∷ decimal num ∷ [])) }
{
    line.word(b"arm")?;
    line.put_byte(b' ')?;
    put_numbered(line, b'e', u64::from(engine))?;
    line.number(num)
}

fn put_packet(line: &mut Line, num: u64, k: u32, piece: &[u8]) -> Result<(), NoMemory>
    ensures { OnOk result (line.new ≡ line.old ++ spaced_out (codes "packet" ∷ decimal num ∷ decimal k ∷ piece_words piece.now)) }
{
    put_count(line, b" packet ", num)?;
    line.number(u64::from(k))?;
    if piece.is_empty() {
        return Ok(());
    }
    line.put_byte(b' ')?;
    put_hex(line, piece)
}

fn put_result(line: &mut Line, shown: &Shown) -> Result<(), NoMemory>
    ensures { OnOk result (line.new ≡ line.old ++ spaced_out (codes "result" ∷ shown_words shown.now)) }
{
    line.word(b"result")?;
    put_shown(line, shown)
}

/// Puts what a result shows into `line`.
fn put_shown(line: &mut Line, shown: &Shown) -> Result<(), NoMemory>
    ensures { OnOk result (line.new ≡ line.old ++ spaced_out (shown_words shown.now)) }
{
    match shown {
        Shown::Plain => line.word(b"ok"),
        Shown::Read(bytes) => put_read(line, bytes.items()),
        Shown::Find { mem, spans } => put_find(line, *mem, spans.items()),
    }
}

/// Puts what the report's results say of an answer into `line`, and nothing for another entry.
pub(crate) fn put_answer(line: &mut Line, kind: &Kind) -> Result<(), NoMemory>
    ensures { OnOk result (line.new ≡ line.old ++ spaced_out (unwrap_or (answer_words kind.now) [])) }
{
    match kind {
        Kind::Result { shown } => put_shown(line, shown),
        Kind::Refused { deny } => put_refused(line, *deny),
        _ => Ok(()),
    }
}

fn put_refused(line: &mut Line, deny: Deny) -> Result<(), NoMemory>
    ensures { OnOk result (line.new ≡ line.old ++ spaced_out (codes "refused" ∷ deny_word deny ∷ [])) }
{
    line.word(b"refused")?;
    line.word(deny_word(deny))
}

fn put_read(line: &mut Line, bytes: &[u8]) -> Result<(), NoMemory>
    ensures { OnOk result (line.new ≡ line.old ++ spaced_out (codes "read" ∷ hex bytes.now ∷ [])) }
{
    line.word(b"read")?;
    line.put_byte(b' ')?;
    put_hex(line, bytes)
}

fn put_find(line: &mut Line, mem: Mem, spans: &[Span]) -> Result<(), NoMemory>
    ensures { OnOk result (line.new ≡ line.old ++ spaced_out (codes "find" ∷ mem_word mem ∷ spans_word spans.now ∷ [])) }
{
    line.word(b"find")?;
    line.word(mem_word(mem))?;
    line.put_byte(b' ')?;
    put_spans(line, spans)
}

/// Returns the name of the refusal `deny`.
fn deny_word(deny: Deny) -> &'static [u8]
    ensures { result.now ≡ deny_word deny }
{
    match deny {
        Deny::NoBuffer => b"NoBuffer",
        Deny::Exists => b"Exists",
        Deny::Pinned => b"Pinned",
        Deny::NotPinned => b"NotPinned",
        Deny::PinMax => b"PinMax",
        Deny::NoSpace => b"NoSpace",
        Deny::NoPages => b"NoPages",
        Deny::NoSwap => b"NoSwap",
    }
}
