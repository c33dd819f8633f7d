//! Takes a script line by line.

ghost use Rattle.std.specs.Prelude.{◌≡◌, ◌≤◌, ◌<◌, ◌+◌, ◌-◌, bytes_eq, false, not, nat_lt, sum_by, ◌==◌, ◌++◌, ◌∷◌, [], IfOk, OnOk, length, take};
ghost use Rattle.std.specs.List.{list_any};
ghost use Rattle.journal_model.specs.scripts.LineWords.{keyword_of};
ghost use Rattle.journal_model.specs.scripts.FirstFault.{with_buffer, with_command, with_submit, with_line, first_word, after_words, nothing_read, is_behind_end, unless_broken};
ghost use Rattle.journal_model.specs.scripts.LineRules.{len_of_word, is_too_long, rule_broken};
ghost use Rattle.journal_model.specs.rules.Commands.{commands_of};
ghost use Rattle.journal_model.specs.scripts.MarkRules.{thread_mappings_at_end};
ghost use Rattle.script_rules.specs.script_mappings.ThreadMappingLists.{IsThreadMappings};
ghost use Rattle.script_text.specs.Fronts.{ends_at};
ghost use Rattle.script_text.specs.Steps.{IsSteady, IsKnown, IsClean, IsJudged, HasRanges, Leads, thread_mappings_next};

use crate::marks::{follow, put_access, put_mark_line, put_vsubmit};
use crate::values::{
    actors_of, declared, engine_of, first_of, move_of, plain_of, push_ops, push_places,
    push_pressed, push_wanted, put_command, read_of, touch_of, write_of, zero_of,
};
use journal_model::line::{
    Access, ActorWords, BufferHead, EngineWord, Keyword, Line, OpWord, OpWords, Phase, PlaceWords,
    Progress,
};
use journal_model::{
    Bytes, Command, CommandLists, Commands, Decl, Decls, MarkKind, Marks, Ops, Script, Sizes,
    TurnLines,
};
use script_lines::line;
use script_rules::script_mappings::ThreadMappings;
use script_rules::{broken, lens_within};
use script_words::cut::Word;
use script_words::keywords::{can_come, keyword};
use script_words::names::Names;
use std::alloc::Global;
use ttm_base::limits::MAX_OP_BYTES;
use ttm_base::{BufId, FlaggedPlaces, NoMemory};

/// What the lines so far have declared, and what the thread at work has mapped.
pub struct Known {
    pub names: Names,
    pub thread_mappings: ThreadMappings,
}

/// By hand, so that no function here proves how each part goes.
impl Drop for Known {
    fn drop(self) {
        let Self {
            names: _,
            thread_mappings: _,
        } = self;
    }
}

fn set_version(progress: &mut Progress, version: u32)
    ensures { progress.new ≡ with_line progress.old (Line.Version version) }
{
    progress.phase = Phase::Vram;
    progress.script.version = version;
}

fn set_vram(progress: &mut Progress, buddy: bool, size: Option<u32>)
    ensures { progress.new ≡ with_line progress.old (Line.Vram buddy size) }
{
    progress.phase = Phase::Tt;
    progress.script.sizes.buddy = buddy;
    progress.script.sizes.vram = zero_of(size);
}

fn set_tt(progress: &mut Progress, size: Option<u32>)
    ensures { progress.new ≡ with_line progress.old (Line.Tt size) }
{
    progress.phase = Phase::Frames;
    progress.script.sizes.tt = zero_of(size);
}

fn set_frames(progress: &mut Progress, size: Option<u32>)
    ensures { progress.new ≡ with_line progress.old (Line.Frames size) }
{
    progress.phase = Phase::Swap;
    progress.script.sizes.frames = zero_of(size);
}

fn set_swap(progress: &mut Progress, size: Option<u32>)
    ensures { progress.new ≡ with_line progress.old (Line.Swap size) }
{
    progress.phase = Phase::Engines;
    progress.script.sizes.swap = zero_of(size);
}

fn set_engines(progress: &mut Progress, size: Option<u32>)
    ensures { progress.new ≡ with_line progress.old (Line.Engines size) }
{
    progress.phase = Phase::Buffers;
    progress.script.sizes.engines = zero_of(size);
}

fn put_buffer(
    alloc: Global,
    names: &mut Names,
    progress: &mut Progress,
    decl: Decl,
) -> Result<(), NoMemory>
    requires { list_any (bytes_eq decl.name) names.old ≡ false }
    ensures ok { OnOk result (progress.new ≡ with_buffer progress.old decl) }
    ensures names { OnOk result (names.new ≡ names.old ++ decl.name ∷ []) }
{
    names.add(alloc, decl.name.items())?;
    progress.script.buffers.push(decl)?;
    Ok(())
}

pub fn put(progress: &mut Progress, command: Command) -> Result<(), NoMemory>
    requires { progress.old.lines < 4096 }
    ensures { OnOk result (progress.new ≡ with_command progress.old command) }
{
    put_command(&mut progress.script.threads, command)?;
    progress.lines += 1;
    Ok(())
}

pub fn put_job(progress: &mut Progress, command: Command, lens: u64) -> Result<(), NoMemory>
    requires lines { progress.old.lines < 4096 }
    requires lens { progress.old.lens + lens ≤ 67108864 }
    ensures { OnOk result (progress.new ≡ with_submit progress.old command lens) }
{
    put_command(&mut progress.script.threads, command)?;
    progress.lines += 1;
    progress.lens += lens;
    Ok(())
}

fn put_thread(alloc: Global, progress: &mut Progress) -> Result<(), NoMemory>
    ensures { OnOk result (progress.new ≡ with_line progress.old Line.Thread) }
{
    progress.script.threads.push(Commands::new(alloc))?;
    progress.phase = Phase::Threads;
    progress.lines = 0;
    Ok(())
}

/// Returns the sum of the lengths of `ops` in bytes, which is no more than `left`.
fn lens(left: u64, ops: &[OpWord]) -> u64
    requires { nat_lt left (sum_by len_of_word ops.now) ≡ false }
    ensures { result ≡ sum_by len_of_word ops.now }
{
    match lens_within(left, ops) {
        Some(lens) => lens,
        None => 0,
    }
}

fn put_turn(alloc: Global, progress: &mut Progress, actors: ActorWords) -> Result<(), NoMemory>
    ensures { OnOk result (progress.new ≡ with_line progress.old (Line.Turn actors)) }
{
    let turns = actors_of(alloc, actors.items())?;
    progress.script.turns.push(turns)?;
    progress.phase = Phase::Turns;
    Ok(())
}

fn put_submit(
    alloc: Global,
    progress: &mut Progress,
    engine: EngineWord,
    ops: OpWords,
) -> Result<(), NoMemory>
    requires lines { progress.old.lines < 4096 }
    requires before { progress.old.lens ≤ 67108864 }
    requires short { is_too_long progress.old (Line.Submit engine ops) ≡ false }
    ensures { OnOk result (progress.new ≡ with_line progress.old (Line.Submit engine ops)) }
{
    let lens = lens(u64::from(MAX_OP_BYTES) - progress.lens, ops.items());
    let mut job = Ops::new(alloc);
    push_ops(&mut job, ops.items())?;
    let command = Command::Submit {
        engine: engine_of(engine),
        ops: job,
    };
    put_job(progress, command, lens)
}

fn put_two_lists(
    alloc: Global,
    names: &mut Names,
    progress: &mut Progress,
    head: BufferHead,
    want: PlaceWords,
    busy: PlaceWords,
) -> Result<(), NoMemory>
    requires { list_any (bytes_eq head.name) names.old ≡ false }
    ensures ok { OnOk result (progress.new ≡ with_line progress.old (Line.Buffer head want busy)) }
    ensures names { OnOk result (names.new ≡ names.old ++ head.name ∷ []) }
{
    let mut list = FlaggedPlaces::new(alloc);
    push_wanted(&mut list, want.items())?;
    push_pressed(&mut list, busy.items())?;
    put_buffer(alloc, names, progress, declared(head, list))
}

fn put_one_list(
    alloc: Global,
    names: &mut Names,
    progress: &mut Progress,
    head: BufferHead,
    list: PlaceWords,
) -> Result<(), NoMemory>
    requires { list_any (bytes_eq head.name) names.old ≡ false }
    ensures ok { OnOk result (progress.new ≡ with_line progress.old (Line.Placed head list)) }
    ensures names { OnOk result (names.new ≡ names.old ++ head.name ∷ []) }
{
    let mut places = FlaggedPlaces::new(alloc);
    push_places(&mut places, list.items())?;
    put_buffer(alloc, names, progress, declared(head, places))
}

fn put_write(
    alloc: Global,
    progress: &mut Progress,
    access: Access,
    b: Option<BufId>,
    off: Option<u32>,
    bytes: Option<Bytes>,
) -> Result<(), NoMemory>
    requires threads { length progress.old.script.threads ≤ 16 }
    requires commands { length (commands_of progress.old.script (length progress.old.script.threads)) ≤ 4096 }
    requires lines { progress.old.lines < 4096 }
    ensures { OnOk result (progress.new ≡ with_line progress.old (Line.Write access b off bytes)) }
{
    put_access(progress, access)?;
    put(progress, write_of(alloc, b, off, bytes))
}

fn put_read(
    progress: &mut Progress,
    access: Access,
    b: Option<BufId>,
    off: Option<u32>,
    len: Option<u32>,
) -> Result<(), NoMemory>
    requires threads { length progress.old.script.threads ≤ 16 }
    requires commands { length (commands_of progress.old.script (length progress.old.script.threads)) ≤ 4096 }
    requires lines { progress.old.lines < 4096 }
    ensures { OnOk result (progress.new ≡ with_line progress.old (Line.Read access b off len)) }
{
    put_access(progress, access)?;
    put(progress, read_of(b, off, len))
}

fn put_map(progress: &mut Progress, b: Option<BufId>) -> Result<(), NoMemory>
    requires threads { length progress.old.script.threads ≤ 16 }
    requires commands { length (commands_of progress.old.script (length progress.old.script.threads)) ≤ 4096 }
    requires lines { progress.old.lines < 4096 }
    ensures { OnOk result (progress.new ≡ with_line progress.old (Line.Map b)) }
{
    put_mark_line(progress, MarkKind::Map { b: first_of(b) })
}

fn put_unmap(progress: &mut Progress, b: Option<BufId>) -> Result<(), NoMemory>
    requires threads { length progress.old.script.threads ≤ 16 }
    requires commands { length (commands_of progress.old.script (length progress.old.script.threads)) ≤ 4096 }
    requires lines { progress.old.lines < 4096 }
    ensures { OnOk result (progress.new ≡ with_line progress.old (Line.Unmap b)) }
{
    put_mark_line(progress, MarkKind::Unmap { b: first_of(b) })
}

fn put_vmap(
    progress: &mut Progress,
    va: Option<u32>,
    n: Option<u32>,
    b: Option<BufId>,
    off: Option<u32>,
) -> Result<(), NoMemory>
    requires threads { length progress.old.script.threads ≤ 16 }
    requires commands { length (commands_of progress.old.script (length progress.old.script.threads)) ≤ 4096 }
    requires lines { progress.old.lines < 4096 }
    ensures { OnOk result (progress.new ≡ with_line progress.old (Line.Vmap va n b off)) }
{
    let kind = MarkKind::Vmap {
        va: zero_of(va),
        n: zero_of(n),
        b: first_of(b),
        off: zero_of(off),
    };
    put_mark_line(progress, kind)
}

fn put_vunmap(progress: &mut Progress, va: Option<u32>, n: Option<u32>) -> Result<(), NoMemory>
    requires threads { length progress.old.script.threads ≤ 16 }
    requires commands { length (commands_of progress.old.script (length progress.old.script.threads)) ≤ 4096 }
    requires lines { progress.old.lines < 4096 }
    ensures { OnOk result (progress.new ≡ with_line progress.old (Line.Vunmap va n)) }
{
    let kind = MarkKind::Vunmap {
        va: zero_of(va),
        n: zero_of(n),
    };
    put_mark_line(progress, kind)
}

/// Takes `line`, which breaks no rule, beside what it maps.
fn accept(
    alloc: Global,
    names: &mut Names,
    thread_mappings: &ThreadMappings,
    progress: &mut Progress,
    line: Line,
) -> Result<(), NoMemory>
    requires steady { IsSteady names.old progress.old }
    requires clean { IsClean progress.old line }
    requires commands { length (commands_of progress.old.script (length progress.old.script.threads)) ≤ progress.old.lines }
    requires thread_mappings { IsThreadMappings thread_mappings.now (thread_mappings_next (thread_mappings_at_end progress.old.script) line) }
    ensures ok { OnOk result (progress.new ≡ with_line progress.old line) }
    ensures steady { OnOk result (IsSteady names.new progress.new) }
{
    match line {
        Line::Version { version } => set_version(progress, version),
        Line::Vram { buddy, size } => set_vram(progress, buddy, size),
        Line::Tt { size } => set_tt(progress, size),
        Line::Frames { size } => set_frames(progress, size),
        Line::Swap { size } => set_swap(progress, size),
        Line::Engines { size } => set_engines(progress, size),
        Line::Buffer { head, want, busy } => {
            return put_two_lists(alloc, names, progress, head, want, busy);
        }
        Line::Placed { head, list } => return put_one_list(alloc, names, progress, head, list),
        Line::Thread => return put_thread(alloc, progress),
        Line::Turn { actors } => return put_turn(alloc, progress, actors),
        Line::End => progress.phase = Phase::After,
        Line::Plain { verb, b } => return put(progress, plain_of(verb, first_of(b))),
        Line::Write {
            access,
            b,
            off,
            bytes,
        } => return put_write(alloc, progress, access, b, off, bytes),
        Line::Read {
            access,
            b,
            off,
            len,
        } => return put_read(progress, access, b, off, len),
        Line::Move { b, mem } => return put(progress, move_of(b, mem)),
        Line::Touch { group } => return put(progress, touch_of(group)),
        Line::Submit { engine, ops } => return put_submit(alloc, progress, engine, ops),
        Line::Map { b } => return put_map(progress, b),
        Line::Unmap { b } => return put_unmap(progress, b),
        Line::Vmap { va, n, b, off } => return put_vmap(progress, va, n, b, off),
        Line::Vunmap { va, n } => return put_vunmap(progress, va, n),
        Line::Vsubmit { engine, ops } => return put_vsubmit(
            alloc,
            thread_mappings,
            progress,
            engine,
            ops,
        ),
    }
    Ok(())
}

/// Returns whether some bytes, of which there are `len`, are all of a line but its line feed.
pub fn does_end_at(text: &[u8], len: usize) -> bool
    ensures { result ≡ ends_at text.now len }
{
    match text.get(len) {
        Some(b) => 0 < len && *b == b'\n',
        None => false,
    }
}

fn keyword_of_line(words: &[Word]) -> Keyword
    ensures { result ≡ keyword_of (first_word words.now) }
{
    match words {
        [] => keyword(b""),
        [word, ..] => keyword(word.items()),
    }
}

/// Returns the least rule that `line` breaks. Where it breaks none, `thread_mappings` become what the thread at work has mapped after it.
fn judge(
    alloc: Global,
    names: &Names,
    thread_mappings: &mut ThreadMappings,
    progress: &Progress,
    line: &Line,
) -> Result<Option<u32>, NoMemory>
    requires steady { IsSteady names.now progress.now }
    requires known { IsKnown thread_mappings.old progress.now }
    requires said { HasRanges line.now }
    ensures { IfOk result (λ rule. IsJudged rule thread_mappings.new progress.now line.now) }
{
    if let Some(rule) = broken(alloc, names, thread_mappings, progress, line)? {
        return Ok(Some(rule));
    }
    follow(alloc, thread_mappings, progress, line)?;
    Ok(None)
}

/// Takes `line`, or returns the least rule that it breaks.
fn take_line(
    alloc: Global,
    known: &mut Known,
    progress: &mut Progress,
    line: Line,
) -> Result<Option<u32>, NoMemory>
    requires steady { IsSteady known.old.names progress.old }
    requires known { IsKnown known.old.thread_mappings progress.old }
    requires said { HasRanges line }
    ensures leads { IfOk result (λ rule. Leads rule progress.new (unless_broken (rule_broken progress.old line) (with_line progress.old line))) }
    ensures steady { OnOk result (IsSteady known.new.names progress.new) }
    ensures known { OnOk result (IsKnown known.new.thread_mappings progress.new) }
{
    match judge(
        alloc,
        &known.names,
        &mut known.thread_mappings,
        progress,
        &line,
    ) {
        Ok(None) => {
            accept(
                alloc,
                &mut known.names,
                &known.thread_mappings,
                progress,
                line,
            )?;
            Ok(None)
        }
        Ok(Some(rule)) => {
            drop(line);
            Ok(Some(rule))
        }
        Err(NoMemory) => {
            drop(line);
            Err(NoMemory)
        }
    }
}

/// Takes the words of a line, or returns the least rule from 3 on that they break.
pub fn take_words(
    alloc: Global,
    known: &mut Known,
    progress: &mut Progress,
    words: &[Word],
) -> Result<Option<u32>, NoMemory>
    requires steady { IsSteady known.old.names progress.old }
    requires known { IsKnown known.old.thread_mappings progress.old }
    ensures leads { IfOk result (λ rule. Leads rule progress.new (after_words progress.old words.now)) }
    ensures steady { OnOk result (IsSteady known.new.names progress.new) }
    ensures known { OnOk result (IsKnown known.new.thread_mappings progress.new) }
{
    let keyword = keyword_of_line(words);
    if !can_come(progress.script.version, progress.phase, keyword) {
        return Ok(Some(3));
    }
    match line(alloc, &known.names, &progress.script, keyword, words)? {
        Some(line) => take_line(alloc, known, progress, line),
        None => Ok(Some(4)),
    }
}

/// Returns the progress before the first line.
pub fn start(alloc: Global) -> Progress
    ensures { result ≡ nothing_read }
{
    Progress {
        phase: Phase::Version,
        script: Script {
            version: 1,
            sizes: Sizes {
                buddy: false,
                vram: 0,
                tt: 0,
                frames: 0,
                swap: 0,
                engines: 0,
            },
            buffers: Decls::new(alloc),
            threads: CommandLists::new(alloc),
            turns: TurnLines::new(alloc),
            marks: Marks::new(alloc),
        },
        lines: 0,
        lens: 0,
    }
}

/// Returns whether the last line has come.
pub fn is_done(phase: Phase) -> bool
    ensures { result ≡ is_behind_end phase }
{
    matches!(phase, Phase::After)
}
