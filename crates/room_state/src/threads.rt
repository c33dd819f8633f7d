ghost use Rattle.std.specs.Prelude.{◌≡◌, ◌∷◌, ◌++◌, [], OnOk, OnErr};
ghost use Rattle.ttm_base.specs.declared.Actor.TheVariants as actor;
ghost use Rattle.journal_model.specs.rules.Legal.{IsLegalNext, world_of};
ghost use Rattle.room_representation.specs.Held.{AreHeld};
ghost use Rattle.room_representation.specs.Nexts.{Next};
ghost use Rattle.room_state.specs.Themes as words;
ghost use Rattle.room_state.specs.declared.themes.Theme.TheVariants as theme;

use crate::themes::{Theme, theme_of};
use journal_model::{Entry, Kind, Script};
use room_jobs::{answer, arm};
use room_moves::move_buffer;
use room_pages::binding::{bind, unbind};
use room_pages::ghosts::free;
use room_pages::{depopulate, swap_out};
use room_parts::{
    back_off, bulk, catch, dry, loose, make, no_pages, populate, refuse, reserve, skip, swap_in,
    take, ticket, untake,
};
use room_representation::Parts;
use std::alloc::Global;
use ttm_base::NoMemory;

/// Applies an entry of `thread` on its ticket and its reservations to the parts.
fn make_lock(parts: &mut Parts, entry: &Entry, thread: u32) -> Result<(), NoMemory>
    ghost w: { Next }
    requires entry { w.entry ≡ entry.now }
    requires held { AreHeld w.script w.before parts.old }
    requires who { entry.now.who ≡ actor.Thread thread }
    requires theme { words.theme_of entry.now.kind ≡ theme.Lock }
    requires next { IsLegalNext w.script (world_of w.script w.before) w.entry }
    ensures ok { OnOk result (AreHeld w.script (w.before ++ w.entry ∷ []) parts.new) }
    ensures err { OnErr result (AreHeld w.script w.before parts.new) }
{
    match &entry.kind {
        Kind::Ticket { s } => {
            ticket(parts, thread, *s);
            Ok(())
        }
        Kind::Reserve { b } => reserve(parts, thread, *b),
        Kind::Backoff { b, s } => {
            back_off(parts, thread, *b, *s);
            Ok(())
        }
        _ => unreachable!(),
    }
}

/// Applies an entry of `thread` on pages that it looks for to the parts.
fn make_search(
    parts: &mut Parts,
    alloc: Global,
    script: &Script,
    entry: &Entry,
    thread: u32,
) -> Result<(), NoMemory>
    ghost w: { Next }
    requires script { w.script ≡ script.now }
    requires entry { w.entry ≡ entry.now }
    requires held { AreHeld w.script w.before parts.old }
    requires who { entry.now.who ≡ actor.Thread thread }
    requires theme { words.theme_of entry.now.kind ≡ theme.Search }
    requires next { IsLegalNext w.script (world_of w.script w.before) w.entry }
    ensures ok { OnOk result (AreHeld w.script (w.before ++ w.entry ∷ []) parts.new) }
    ensures err { OnErr result (AreHeld w.script w.before parts.new) }
{
    match &entry.kind {
        Kind::Take { b, mem, spans } => { take(parts, thread, *b, *mem, spans) }
        Kind::Untake { b, mem } => {
            untake(parts, thread, *b, *mem);
            Ok(())
        }
        Kind::Catch { b, why } => { catch(parts, alloc, thread, *b, *why) }
        Kind::Dry { b, k, why } => {
            dry(parts, script, thread, *b, *k, why);
            Ok(())
        }
        _ => unreachable!(),
    }
}

/// Applies an entry of `thread` on a buffer that goes to its target to the parts.
fn make_carry(parts: &mut Parts, alloc: Global, entry: &Entry, thread: u32) -> Result<(), NoMemory>
    ghost w: { Next }
    requires entry { w.entry ≡ entry.now }
    requires held { AreHeld w.script w.before parts.old }
    requires who { entry.now.who ≡ actor.Thread thread }
    requires theme { words.theme_of entry.now.kind ≡ theme.Carry }
    requires next { IsLegalNext w.script (world_of w.script w.before) w.entry }
    ensures ok { OnOk result (AreHeld w.script (w.before ++ w.entry ∷ []) parts.new) }
    ensures err { OnErr result (AreHeld w.script w.before parts.new) }
{
    match &entry.kind {
        Kind::Bind { b } => {
            bind(parts, thread, *b);
            Ok(())
        }
        Kind::Unbind { b } => {
            unbind(parts, thread, *b);
            Ok(())
        }
        Kind::Move { b, mem, num, left } => {
            move_buffer(parts, alloc, thread, *b, *mem, *num, *left)
        }
        _ => unreachable!(),
    }
}

/// Applies an entry of `thread` on frames for a buffer to the parts.
fn make_fill(parts: &mut Parts, entry: &Entry, thread: u32)
    ghost w: { Next }
    requires entry { w.entry ≡ entry.now }
    requires held { AreHeld w.script w.before parts.old }
    requires who { entry.now.who ≡ actor.Thread thread }
    requires theme { words.theme_of entry.now.kind ≡ theme.Fill }
    requires next { IsLegalNext w.script (world_of w.script w.before) w.entry }
    ensures { AreHeld w.script (w.before ++ w.entry ∷ []) parts.new }
{
    match &entry.kind {
        Kind::Populate { b, page, frame } => {
            populate(parts, thread, *b, *page, *frame);
        }
        Kind::SwapIn {
            b,
            page,
            slot,
            frame,
        } => {
            swap_in(parts, thread, *b, *page, *slot, *frame);
        }
        Kind::NoPages { b } => no_pages(parts, thread, *b),
        _ => unreachable!(),
    }
}

/// Applies an entry of `thread` on frames that are given away, or on a victim that is let go, to the parts.
fn make_empty(parts: &mut Parts, entry: &Entry, thread: u32) -> Result<(), NoMemory>
    ghost w: { Next }
    requires entry { w.entry ≡ entry.now }
    requires held { AreHeld w.script w.before parts.old }
    requires who { entry.now.who ≡ actor.Thread thread }
    requires theme { words.theme_of entry.now.kind ≡ theme.Empty }
    requires next { IsLegalNext w.script (world_of w.script w.before) w.entry }
    ensures ok { OnOk result (AreHeld w.script (w.before ++ w.entry ∷ []) parts.new) }
    ensures err { OnErr result (AreHeld w.script w.before parts.new) }
{
    match &entry.kind {
        Kind::Depopulate { b } => {
            depopulate(parts, thread, *b);
            Ok(())
        }
        Kind::SwapOut { b, page, slot } => {
            swap_out(parts, thread, *b, *page, *slot);
            Ok(())
        }
        Kind::Loose { b } => {
            loose(parts, thread, *b);
            Ok(())
        }
        Kind::Skip { b } => skip(parts, thread, *b),
        _ => unreachable!(),
    }
}

/// Applies an entry by which `thread` does what its command is for, or answers it, to the parts.
fn make_act(
    parts: &mut Parts,
    alloc: Global,
    script: &Script,
    entry: &Entry,
    thread: u32,
) -> Result<(), NoMemory>
    ghost w: { Next }
    requires script { w.script ≡ script.now }
    requires entry { w.entry ≡ entry.now }
    requires held { AreHeld w.script w.before parts.old }
    requires who { entry.now.who ≡ actor.Thread thread }
    requires theme { words.theme_of entry.now.kind ≡ theme.Act }
    requires next { IsLegalNext w.script (world_of w.script w.before) w.entry }
    ensures ok { OnOk result (AreHeld w.script (w.before ++ w.entry ∷ []) parts.new) }
    ensures err { OnErr result (AreHeld w.script w.before parts.new) }
{
    match &entry.kind {
        Kind::New { b } => make(parts, script, thread, *b),
        Kind::Free { b, g } => free(parts, alloc, thread, *b, *g),
        Kind::Arm { engine, num } => { arm(parts, alloc, script, thread, *engine, *num) }
        Kind::Bulk { group } => {
            bulk(parts, thread, *group);
            Ok(())
        }
        Kind::Result { shown } => { answer(parts, alloc, script, thread, shown) }
        Kind::Refused { deny } => {
            refuse(parts, alloc, thread, *deny);
            Ok(())
        }
        _ => unreachable!(),
    }
}

/// Applies an entry of `thread` to the parts.
pub(crate) fn make_of_thread(
    parts: &mut Parts,
    alloc: Global,
    script: &Script,
    entry: &Entry,
    thread: u32,
) -> Result<(), NoMemory>
    ghost w: { Next }
    requires script { w.script ≡ script.now }
    requires entry { w.entry ≡ entry.now }
    requires held { AreHeld w.script w.before parts.old }
    requires who { entry.now.who ≡ actor.Thread thread }
    requires next { IsLegalNext w.script (world_of w.script w.before) w.entry }
    ensures ok { OnOk result (AreHeld w.script (w.before ++ w.entry ∷ []) parts.new) }
    ensures err { OnErr result (AreHeld w.script w.before parts.new) }
{
    match theme_of(&entry.kind) {
        Theme::Lock => make_lock(parts, entry, thread),
        Theme::Search => make_search(parts, alloc, script, entry, thread),
        Theme::Carry => make_carry(parts, alloc, entry, thread),
        Theme::Fill => {
            make_fill(parts, entry, thread);
            Ok(())
        }
        Theme::Empty => make_empty(parts, entry, thread),
        Theme::Act => make_act(parts, alloc, script, entry, thread),
        Theme::Worker => unreachable!(),
    }
}
