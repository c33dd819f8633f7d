//! The rules that a line may break, from the fifth on.

ghost use Rattle.std.specs.Prelude.{◌≡◌, ◌+◌, ◌*◌, ◌≤◌, [], ◌∷◌, ◌++◌, Some, None, false, OnOk, IfOk, if◌then◌else◌, length, is_none, sum_by, fold, map, flat_map, option_to_list, bytes_eq, nat_lt, unwrap_or};
ghost use Rattle.std.specs.List.{list_any, list_all};
ghost use Rattle.journal_model.specs.rules.Commands.{decl, first_mentions};
ghost use Rattle.journal_model.specs.scripts.Reading.{names_of};
ghost use Rattle.journal_model.specs.scripts.ScriptRules.{is_name, is_letter, is_letter_or_digit};
ghost use Rattle.journal_model.specs.rules.State.{same_buffer};
ghost use Rattle.script_rules.specs.Mentions.{mentioned};
ghost use Rattle.journal_model.specs.scripts.LineRules.{lacks_number_in_head, is_broken_place, is_broken_actor, is_broken_engine, lacks_number_in_op, lacks_number, lacks_name_in_op, has_wrong_name, lacks_name, is_no_place, may_force, is_no_list, lacks_place, is_zero, is_more_than, passes, has_wrong_range, passes_in_op, bytes_pass, has_range_fault, lacks_byte_in_op, are_wrong_bytes, has_byte_fault, same_known, names_one_twice, buffers_of_word, is_big_job, has_job_fault, is_missing_actor, is_missing_engine, lacks_actor, is_one_too_many, len_of_word, lens_of_line, is_too_long, passes_pages, passes_end, has_mapped, has_map_fault, rule_broken};
ghost use Rattle.journal_model.specs.scripts.MarkRules as marks;
ghost use Rattle.journal_model.specs.scripts.MarkRules.{thread_mappings_at_end};
ghost use Rattle.script_rules.specs.script_mappings.ThreadMappingLists.{IsThreadMappings};

use crate::addresses::{
    addressed_lens_within, breaks_addressed_job, breaks_page, does_pass_end, lack_address,
    lack_byte_at_address, some_address_passes,
};
use crate::script_mappings::ThreadMappings;
use journal_model::line::{
    Access, ActorWord, ActorWords, BufferHead, EngineWord, Line, OpWord, PlaceWord, Progress, Verb,
};
use journal_model::{Bytes, Script};
use script_words::names::Names;
use std::alloc::Global;
use ttm_base::limits::{MAX_BUFFERS, MAX_OP_BYTES, MAX_THREAD_LINES, MAX_THREADS, SPACE_PAGES};
use ttm_base::{BufId, ItemList, NoMemory};

fn lacks_head_number(head: &BufferHead) -> bool
    ensures { result ≡ lacks_number_in_head head.now }
{
    head.pages.is_none() || head.prio.is_none() || head.group.is_none() || head.align.is_none()
}

fn has_broken_place(places: &[PlaceWord]) -> bool
    ensures { result ≡ list_any is_broken_place places.now }
{
    places.iter().any(|p| matches!(p, PlaceWord::BrokenNumber))
}

fn has_broken_actor(actors: &[ActorWord]) -> bool
    ensures { result ≡ list_any is_broken_actor actors.now }
{
    actors.iter().any(|a| matches!(a, ActorWord::BrokenNumber))
}

fn has_broken_engine(engine: EngineWord) -> bool
    ensures { result ≡ is_broken_engine engine }
{
    matches!(engine, EngineWord::BrokenNumber)
}

fn lacks_op_number(op: &OpWord) -> bool
    ensures { result ≡ lacks_number_in_op op.now }
{
    match *op {
        OpWord::Fill { off, len, .. } | OpWord::Probe { off, len, .. } => {
            off.is_none() || len.is_none()
        }
        OpWord::Copy {
            doff,
            soff,
            len,
            ..
        }
        | OpWord::Xor {
            doff,
            soff,
            len,
            ..
        } => doff.is_none() || soff.is_none() || len.is_none(),
        OpWord::Malformed => false,
    }
}

fn lack_number(ops: &[OpWord]) -> bool
    ensures { result ≡ list_any lacks_number_in_op ops.now }
{
    ops.iter().any(|o| lacks_op_number(o))
}

/// Returns whether a number isn't plain or is out of its range.
fn breaks_number(line: &Line) -> bool
    ensures { result ≡ lacks_number line.now }
{
    match line {
        Line::Vram { size, .. }
        | Line::Tt { size }
        | Line::Frames { size }
        | Line::Swap { size }
        | Line::Engines { size } => size.is_none(),
        Line::Buffer { head, want, busy } => {
            lacks_head_number(head)
                || has_broken_place(want.items())
                || has_broken_place(busy.items())
        }
        Line::Placed { head, list } => lacks_head_number(head) || has_broken_place(list.items()),
        Line::Turn { actors } => has_broken_actor(actors.items()),
        Line::Write { off, .. } => off.is_none(),
        Line::Read { off, len, .. } => off.is_none() || len.is_none(),
        Line::Touch { group } => group.is_none(),
        Line::Submit { engine, ops } => has_broken_engine(*engine) || lack_number(ops.items()),
        Line::Vmap { va, n, off, .. } => va.is_none() || n.is_none() || off.is_none(),
        Line::Vunmap { va, n } => va.is_none() || n.is_none(),
        Line::Vsubmit { engine, ops } => has_broken_engine(*engine) || lack_address(ops.items()),
        Line::Version { .. }
        | Line::Thread
        | Line::End
        | Line::Plain { .. }
        | Line::Move { .. }
        | Line::Map { .. }
        | Line::Unmap { .. } => false,
    }
}

fn lacks_op_name(op: &OpWord) -> bool
    ensures { result ≡ lacks_name_in_op op.now }
{
    match *op {
        OpWord::Fill { dst, .. } => dst.is_none(),
        OpWord::Probe { src, .. } => src.is_none(),
        OpWord::Copy { dst, src, .. } | OpWord::Xor { dst, src, .. } => {
            dst.is_none() || src.is_none()
        }
        OpWord::Malformed => false,
    }
}

fn lack_name(ops: &[OpWord]) -> bool
    ensures { result ≡ list_any lacks_name_in_op ops.now }
{
    ops.iter().any(|o| lacks_op_name(o))
}

fn is_small_letter(c: u8) -> bool
    ensures { result ≡ is_letter c }
{
    b'a' <= c && c <= b'z'
}

fn are_letters_or_digits(word: &[u8]) -> bool
    ensures { result ≡ list_all is_letter_or_digit word.now }
{
    word.iter().all(|c| (b'a' <= *c && *c <= b'z') || (b'0' <= *c && *c <= b'9'))
}

fn is_good_name(word: &[u8]) -> bool
    ensures { result ≡ is_name word.now }
{
    match word {
        [] => false,
        [c, rest @ ..] => is_small_letter(*c) && are_letters_or_digits(rest) && rest.len() <= 7,
    }
}

fn breaks_head_name(names: &Names, head: &BufferHead) -> bool
    ensures { result ≡ has_wrong_name names.now head.now }
{
    !is_good_name(head.name.items()) || names.contains(head.name.items())
}

/// Returns whether a name is malformed, unknown, or declared twice.
fn breaks_name(names: &Names, script: &Script, line: &Line) -> bool
    requires { names.now ≡ names_of script.now.buffers }
    ensures { result ≡ lacks_name script.now line.now }
{
    match line {
        Line::Buffer { head, .. } | Line::Placed { head, .. } => breaks_head_name(names, head),
        Line::Plain { b, .. }
        | Line::Write { b, .. }
        | Line::Read { b, .. }
        | Line::Move { b, .. }
        | Line::Map { b }
        | Line::Unmap { b }
        | Line::Vmap { b, .. } => b.is_none(),
        Line::Submit { ops, .. } => lack_name(ops.items()),
        _ => false,
    }
}

fn has_malformed(places: &[PlaceWord]) -> bool
    ensures { result ≡ list_any is_no_place places.now }
{
    places.iter().any(|p| matches!(p, PlaceWord::Malformed))
}

fn breaks_list(most: usize, places: &[PlaceWord]) -> bool
    ensures { result ≡ is_no_list most places.now }
{
    has_malformed(places) || !(1 <= places.len() && places.len() <= most)
}

fn can_force(place: &PlaceWord) -> bool
    ensures { result ≡ may_force place.now }
{
    match place {
        PlaceWord::Is(place) => !place.desired,
        _ => true,
    }
}

fn has_forced(places: &[PlaceWord]) -> bool
    ensures { result ≡ list_any may_force places.now }
{
    places.iter().any(|p| can_force(p))
}

/// Returns whether a place or a list of places is malformed.
fn breaks_place(line: &Line) -> bool
    ensures { result ≡ lacks_place line.now }
{
    match line {
        Line::Buffer { want, busy, .. } => {
            breaks_list(4, want.items()) || breaks_list(4, busy.items())
        }
        Line::Placed { list, .. } => breaks_list(8, list.items()) || !has_forced(list.items()),
        _ => false,
    }
}

pub(crate) fn is_nothing(len: Option<u32>) -> bool
    ensures { result ≡ is_zero len }
{
    match len {
        Some(n) => n == 0,
        None => false,
    }
}

pub(crate) fn is_above(most: u32, len: Option<u32>) -> bool
    ensures { result ≡ is_more_than most len }
{
    match len {
        Some(n) => most < n,
        None => false,
    }
}

fn pages_of(script: &Script, b: BufId) -> u32
    ensures { result ≡ (decl script.now b).pages }
{
    match script.buffers.items().get(b.0 as usize) {
        Some(decl) => decl.pages,
        None => 0,
    }
}

fn ends_behind(pages: u32, off: u32, len: u32) -> bool
    ensures { result ≡ nat_lt (4096 * pages) (off + len) }
{
    4096 * u64::from(pages) < u64::from(off) + u64::from(len)
}

fn does_pass(script: &Script, b: Option<BufId>, off: Option<u32>, len: Option<u32>) -> bool
    ensures { result ≡ passes script.now b off len }
{
    match (b, off, len) {
        (Some(b), Some(off), Some(len)) => ends_behind(pages_of(script, b), off, len),
        _ => false,
    }
}

fn is_wrong_range(script: &Script, b: Option<BufId>, off: Option<u32>, len: Option<u32>) -> bool
    ensures { result ≡ has_wrong_range script.now b off len }
{
    is_nothing(len) || does_pass(script, b, off, len)
}

fn op_passes(script: &Script, op: &OpWord) -> bool
    ensures { result ≡ passes_in_op script.now op.now }
{
    match *op {
        OpWord::Fill { dst, off, len, .. } => is_wrong_range(script, dst, off, len),
        OpWord::Copy {
            dst,
            doff,
            src,
            soff,
            len,
        }
        | OpWord::Xor {
            dst,
            doff,
            src,
            soff,
            len,
        } => { is_wrong_range(script, dst, doff, len) || does_pass(script, src, soff, len) }
        OpWord::Probe { src, off, len } => is_wrong_range(script, src, off, len)
            || is_above(256, len),
        OpWord::Malformed => false,
    }
}

fn some_op_passes(script: &Script, ops: &[OpWord]) -> bool
    ensures { result ≡ list_any (passes_in_op script.now) ops.now }
{
    ops.iter().any(|o| op_passes(script, o))
}

fn count_passes(script: &Script, b: Option<BufId>, off: Option<u32>, count: usize) -> bool
    ensures { result ≡ passes script.now b off (Some count) }
{
    match (b, off) {
        (Some(b), Some(off)) => {
            let size = 4096 * u64::from(pages_of(script, b));
            let off = u64::from(off);
            size < off || size - off < count as u64
        }
        _ => false,
    }
}

fn do_bytes_pass(script: &Script, b: Option<BufId>, off: Option<u32>, bytes: &Option<Bytes>) -> bool
    ensures { result ≡ bytes_pass script.now b off bytes.now }
{
    match bytes {
        Some(bytes) => count_passes(script, b, off, bytes.len()),
        None => false,
    }
}

fn pages_pass(script: &Script, b: Option<BufId>, off: Option<u32>, n: Option<u32>) -> bool
    ensures { result ≡ passes_pages script.now b off n }
{
    match b {
        Some(b) => does_pass_end(u64::from(pages_of(script, b)), off, n),
        None => false,
    }
}

/// Returns whether a range passes its buffer or its space, a length is 0, or too many bytes would be shown.
fn breaks_range(script: &Script, line: &Line) -> bool
    ensures { result ≡ has_range_fault script.now line.now }
{
    match line {
        Line::Write { b, off, bytes, .. } => do_bytes_pass(script, *b, *off, bytes),
        Line::Read { b, off, len, .. } => {
            is_wrong_range(script, *b, *off, *len) || is_above(256, *len)
        }
        Line::Submit { ops, .. } => some_op_passes(script, ops.items()),
        Line::Vmap { va, n, b, off } => {
            does_pass_end(u64::from(SPACE_PAGES), *va, *n) || pages_pass(script, *b, *off, *n)
        }
        Line::Vunmap { va, n } => does_pass_end(u64::from(SPACE_PAGES), *va, *n),
        Line::Vsubmit { ops, .. } => some_address_passes(ops.items()),
        _ => false,
    }
}

fn lack_byte(ops: &[OpWord]) -> bool
    ensures { result ≡ list_any lacks_byte_in_op ops.now }
{
    ops.iter()
        .any(|o| matches!(o, OpWord::Fill { byte: None, .. }))
}

fn are_bad_bytes(bytes: &Option<Bytes>) -> bool
    ensures { result ≡ are_wrong_bytes bytes.now }
{
    match bytes {
        Some(bytes) => !(1 <= bytes.len() && bytes.len() <= 256),
        None => true,
    }
}

/// Returns whether bytes are malformed, none, or more than 256.
fn breaks_bytes(line: &Line) -> bool
    ensures { result ≡ has_byte_fault line.now }
{
    match line {
        Line::Write { bytes, .. } => are_bad_bytes(bytes),
        Line::Submit { ops, .. } => lack_byte(ops.items()),
        Line::Vsubmit { ops, .. } => lack_byte_at_address(ops.items()),
        _ => false,
    }
}

fn are_same(a: Option<BufId>, b: Option<BufId>) -> bool
    ensures { result ≡ same_known a b }
{
    match (a, b) {
        (Some(a), Some(b)) => a.0 == b.0,
        _ => false,
    }
}

fn is_named_twice(op: &OpWord) -> bool
    ensures { result ≡ names_one_twice op.now }
{
    match *op {
        OpWord::Copy { dst, src, .. } => are_same(dst, src),
        OpWord::Xor { dst, src, .. } => are_same(dst, src),
        _ => false,
    }
}

fn some_is_named_twice(ops: &[OpWord]) -> bool
    ensures { result ≡ list_any names_one_twice ops.now }
{
    ops.iter().any(|o| is_named_twice(o))
}

fn has(seen: &[BufId], b: BufId) -> bool
    ensures { result ≡ list_any (same_buffer b) seen.now }
{
    seen.iter().any(|c| b.0 == c.0)
}

pub(crate) fn mention(seen: &mut ItemList<BufId>, b: Option<BufId>) -> Result<(), NoMemory>
    ensures { OnOk result (seen.new ≡ fold mentioned seen.old (option_to_list b)) }
{
    if let Some(b) = b {
        if !has(seen.items(), b) {
            seen.push(b)?;
        }
    }
    Ok(())
}

fn mention_op(seen: &mut ItemList<BufId>, op: &OpWord) -> Result<(), NoMemory>
    ensures { OnOk result (seen.new ≡ fold mentioned seen.old (buffers_of_word op.now)) }
{
    match *op {
        OpWord::Fill { dst, .. } => mention(seen, dst),
        OpWord::Probe { src, .. } => mention(seen, src),
        OpWord::Copy { dst, src, .. } => {
            mention(seen, dst)?;
            mention(seen, src)
        }
        OpWord::Xor { dst, src, .. } => {
            mention(seen, dst)?;
            mention(seen, src)
        }
        OpWord::Malformed => Ok(()),
    }
}

/// Puts each buffer of the job `ops` into `seen` once.
fn mention_ops(seen: &mut ItemList<BufId>, ops: &[OpWord]) -> Result<(), NoMemory>
    requires { seen.old ≡ [] }
    ensures { OnOk result (seen.new ≡ first_mentions [] (flat_map buffers_of_word ops.now)) }
{
    for op in ops {
        mention_op(seen, op)?;
    }
    Ok(())
}

/// The number of operations that can't name too many buffers, since each names two at most.
const FEW_OPS: usize = 8;

/// Returns whether there are too many operations in a job, or too many buffers.
#[tactic(auto, using(crate::proofs::FewMentions::small_job))]
fn is_too_big(alloc: Global, ops: &[OpWord]) -> Result<bool, NoMemory>
    ensures { IfOk result (λ big. big ≡ is_big_job ops.now) }
{
    if ops.len() <= FEW_OPS {
        return Ok(false);
    }
    let mut seen = ItemList::new(alloc);
    mention_ops(&mut seen, ops)?;
    Ok(64 < ops.len() || 16 < seen.len())
}

/// Returns whether one buffer stands twice in a copy or xor, or there are too many buffers or operations in a job.
fn breaks_job(
    alloc: Global,
    script: &Script,
    thread_mappings: &ThreadMappings,
    line: &Line,
) -> Result<bool, NoMemory>
    requires numbers { lacks_number line.now ≡ false }
    requires ranges { has_range_fault script.now line.now ≡ false }
    ensures { IfOk result (λ broken. (d : marks.ThreadMappings) → IsThreadMappings thread_mappings.now d → broken ≡ has_job_fault d line.now) }
{
    match line {
        Line::Submit { ops, .. } => {
            let big = is_too_big(alloc, ops.items())?;
            Ok(some_is_named_twice(ops.items()) || big)
        }
        Line::Vsubmit { ops, .. } => breaks_addressed_job(alloc, thread_mappings, ops.items()),
        _ => Ok(false),
    }
}

fn has_missing(actors: &[ActorWord]) -> bool
    ensures { result ≡ list_any is_missing_actor actors.now }
{
    actors.iter().any(|a| matches!(a, ActorWord::Missing))
}

fn is_engine_missing(engine: EngineWord) -> bool
    ensures { result ≡ is_missing_engine engine }
{
    matches!(engine, EngineWord::Missing)
}

/// Returns whether the line names an engine or an actor that isn't there.
fn breaks_actor(line: &Line) -> bool
    ensures { result ≡ lacks_actor line.now }
{
    match line {
        Line::Turn { actors } => has_missing(actors.items()),
        Line::Submit { engine, .. } => is_engine_missing(*engine),
        Line::Vsubmit { engine, .. } => is_engine_missing(*engine),
        _ => false,
    }
}

/// Returns whether the line is one too many.
fn breaks_count(progress: &Progress, line: &Line) -> bool
    ensures { result ≡ is_one_too_many progress.now line.now }
{
    match line {
        Line::Buffer { .. } | Line::Placed { .. } => MAX_BUFFERS <= progress.script.buffers.len(),
        Line::Thread => MAX_THREADS <= progress.script.threads.len(),
        Line::Plain { .. }
        | Line::Write { .. }
        | Line::Read { .. }
        | Line::Move { .. }
        | Line::Touch { .. }
        | Line::Submit { .. }
        | Line::Map { .. }
        | Line::Unmap { .. }
        | Line::Vmap { .. }
        | Line::Vunmap { .. }
        | Line::Vsubmit { .. } => MAX_THREAD_LINES <= progress.lines,
        _ => false,
    }
}

fn len_of(op: &OpWord) -> u32
    ensures { result ≡ len_of_word op.now }
{
    match *op {
        OpWord::Fill { len, .. }
        | OpWord::Copy { len, .. }
        | OpWord::Xor { len, .. }
        | OpWord::Probe { len, .. } => len.unwrap_or(0),
        OpWord::Malformed => 0,
    }
}

/// Returns the sum of the lengths of `ops` in bytes, or `None` if it is more than `left`.
pub fn lens_within(left: u64, ops: &[OpWord]) -> Option<u64>
    ensures { result ≡ (if nat_lt left (sum_by len_of_word ops.now) then None else Some (sum_by len_of_word ops.now)) }
{
    let mut sum = 0;
    for op in ops {
        let len = u64::from(len_of(op));
        if left - sum < len {
            return None;
        }
        sum += len;
    }
    Some(sum)
}

/// Returns whether the lengths of all operations are too great.
fn breaks_lens(progress: &Progress, line: &Line) -> bool
    requires { progress.now.lens ≤ 67108864 }
    ensures { result ≡ is_too_long progress.now line.now }
{
    match line {
        Line::Submit { ops, .. } => lens_within(
            u64::from(MAX_OP_BYTES) - progress.lens,
            ops.items(),
        ).is_none(),
        Line::Vsubmit { ops, .. } => {
            addressed_lens_within(u64::from(MAX_OP_BYTES) - progress.lens, ops.items()).is_none()
        }
        _ => false,
    }
}

fn is_mapped(thread_mappings: &ThreadMappings, b: Option<BufId>) -> bool
    ensures { (d : marks.ThreadMappings) → IsThreadMappings thread_mappings.now d → result ≡ has_mapped d b }
{
    match b {
        Some(b) => thread_mappings.has(b),
        None => false,
    }
}

/// Returns whether the line maps a buffer that the thread has mapped, or unmaps, peeks or pokes one that it hasn't.
fn breaks_mapping(thread_mappings: &ThreadMappings, line: &Line) -> bool
    ensures { (d : marks.ThreadMappings) → IsThreadMappings thread_mappings.now d → result ≡ has_map_fault d line.now }
{
    match line {
        Line::Map { b } => is_mapped(thread_mappings, *b),
        Line::Unmap { b } => !is_mapped(thread_mappings, *b),
        Line::Read {
            access: Access::Mapped,
            b,
            ..
        } => !is_mapped(thread_mappings, *b),
        Line::Write {
            access: Access::Mapped,
            b,
            ..
        } => !is_mapped(thread_mappings, *b),
        _ => false,
    }
}

/// Returns the least rule that a command breaks which names a buffer and nothing else.
fn broken_by_plain(progress: &Progress, verb: Verb, b: Option<BufId>) -> Option<u32>
    requires { progress.now.lens ≤ 67108864 }
    ensures { result ≡ rule_broken progress.now (Line.Plain verb b) }
{
    if b.is_none() {
        Some(6)
    } else if MAX_THREAD_LINES <= progress.lines {
        Some(12)
    } else {
        None
    }
}

/// Returns the least rule that a line of turns breaks.
fn broken_by_turn(progress: &Progress, actors: &ActorWords) -> Option<u32>
    requires { progress.now.lens ≤ 67108864 }
    ensures { result ≡ rule_broken progress.now (Line.Turn actors.now) }
{
    if has_broken_actor(actors.items()) {
        Some(5)
    } else if has_missing(actors.items()) {
        Some(11)
    } else {
        None
    }
}

/// Returns the least rule from the fifth on that the line breaks, or `None` if it breaks none of them.
pub fn broken(
    alloc: Global,
    names: &Names,
    thread_mappings: &ThreadMappings,
    progress: &Progress,
    line: &Line,
) -> Result<Option<u32>, NoMemory>
    requires names { names.now ≡ names_of progress.now.script.buffers }
    requires lens { progress.now.lens ≤ 67108864 }
    requires thread_mappings { IsThreadMappings thread_mappings.now (thread_mappings_at_end progress.now.script) }
    ensures { IfOk result (λ rule. rule ≡ rule_broken progress.now line.now) }
{
    match line {
        Line::Plain { verb, b } => Ok(broken_by_plain(progress, *verb, *b)),
        Line::Turn { actors } => Ok(broken_by_turn(progress, actors)),
        _ => broken_of_all(alloc, names, thread_mappings, progress, line),
    }
}

/// Returns the same of a line of any kind, by asking for each rule in turn.
fn broken_of_all(
    alloc: Global,
    names: &Names,
    thread_mappings: &ThreadMappings,
    progress: &Progress,
    line: &Line,
) -> Result<Option<u32>, NoMemory>
    requires names { names.now ≡ names_of progress.now.script.buffers }
    requires lens { progress.now.lens ≤ 67108864 }
    requires thread_mappings { IsThreadMappings thread_mappings.now (thread_mappings_at_end progress.now.script) }
    ensures { IfOk result (λ rule. rule ≡ rule_broken progress.now line.now) }
{
    if breaks_number(line) {
        return Ok(Some(5));
    }
    if breaks_name(names, &progress.script, line) {
        return Ok(Some(6));
    }
    if breaks_place(line) {
        return Ok(Some(7));
    }
    if breaks_range(&progress.script, line) {
        return Ok(Some(8));
    }
    if breaks_bytes(line) {
        return Ok(Some(9));
    }
    if breaks_job(alloc, &progress.script, thread_mappings, line)? {
        return Ok(Some(10));
    }
    if breaks_actor(line) {
        return Ok(Some(11));
    }
    if breaks_count(progress, line) {
        return Ok(Some(12));
    }
    if breaks_lens(progress, line) {
        return Ok(Some(13));
    }
    if breaks_mapping(thread_mappings, line) {
        return Ok(Some(14));
    }
    if breaks_page(alloc, &progress.script, thread_mappings, line)? {
        return Ok(Some(15));
    }
    Ok(None)
}
