//! What a case asks to print: the answer to each turn, what a mapping knows, the aperture, and the report or its accounts.

ghost use Rattle.std.specs.Prelude.{◌≤◌, length};

use super::pair::Pair;
use crate::pieces::print_all;
use aperture_table::Aperture;
use device_core::Device;
use journal_model::{Entry, Kind};
use std::io;
use test_cases::{Case, no_memory};
use ttm_base::{Actor, BufId, Need, PagePlace, Turn};

/// Returns the letter of an actor, and its number.
fn words_of_actor(who: Actor) -> (&'static str, Option<u64>) {
    match who {
        Actor::Thread(n) => ("t", Some(u64::from(n))),
        Actor::Engine(n) => ("e", Some(u64::from(n))),
        Actor::Reaper => ("r", None),
    }
}

/// Returns the words for an answer to a turn, and the number behind them.
fn words_of(turn: Turn) -> (&'static str, Option<u64>) {
    match turn {
        Turn::Made(number) => (" made ", Some(number)),
        Turn::Blocked(Need::Fence(job)) => (" blocked by job ", Some(job.num)),
        Turn::Blocked(Need::Holder(stamp)) => (" blocked by ticket ", Some(stamp.0)),
        Turn::Blocked(Need::Ghost(number)) => (" blocked by ghost ", Some(number)),
        Turn::Blocked(Need::NoCommand) => (" without a command", None),
        Turn::Blocked(Need::NoJob) => (" without a job", None),
        Turn::Blocked(Need::NoGhost) => (" without a ghost", None),
        Turn::Over => (" over", None),
    }
}

/// Returns the word before the context of the job that an answer names, and the context, if it names a job.
fn words_of_context(turn: Turn) -> (&'static str, Option<u64>) {
    match turn {
        Turn::Blocked(Need::Fence(job)) => (" of ", Some(u64::from(job.ctx))),
        _ => ("", None),
    }
}

/// Prints what came of an actor's turn, if the case asks for it.
pub fn print_turn(rt: &impl Print, case: &Case, who: Actor, turn: Turn) -> io::Result<()> {
    if !case.tells_turns {
        return Ok(());
    }
    print_all(
        rt,
        &[
            words_of_actor(who),
            words_of(turn),
            words_of_context(turn),
            ("\n", None),
        ],
    )
}

/// Returns the word for where a page is, and the number of its place.
fn words_of_place(place: Option<PagePlace>) -> (&'static str, Option<u64>) {
    match place {
        Some(PagePlace::Vram(page)) => (" vram ", Some(u64::from(page))),
        Some(PagePlace::Frame(frame)) => (" frame ", Some(u64::from(frame))),
        Some(PagePlace::Aper(page)) => (" tt ", Some(u64::from(page))),
        None => (" -", None),
    }
}

/// Returns whether the last entry answers a command.
fn has_answered(journal: &[Entry]) -> bool {
    match journal.last() {
        Some(entry) => matches!(&entry.kind, Kind::Result { .. } | Kind::Refused { .. }),
        None => false,
    }
}

/// Prints the places of the first two pages of the first buffer that the first thread's mapping of it knows, if the case asks for it and a
/// turn was taken that answered a command.
pub fn print_mapping(
    rt: &impl Print,
    case: &Case,
    is_taken: bool,
    device: &Device,
) -> io::Result<()> {
    if !(case.shows_mapping & is_taken & has_answered(device.journal())) {
        return Ok(());
    }
    let maps = device.maps();
    let first = words_of_place(maps.entry(1, BufId(0), 0));
    let second = words_of_place(maps.entry(1, BufId(0), 1));
    print_all(rt, &[("knows", None), first, second, ("\n", None)])
}

/// Prints the frame that each of `pages` pages of TT stands for.
fn print_aperture(rt: &impl Print, aperture: &Aperture, pages: u32) -> io::Result<()>
    requires { pages ≤ length aperture.now }
{
    print!(rt; "aperture")?;
    for page in 0..pages {
        match aperture.get(page) {
            Some(frame) => print!(rt; " {frame}"),
            None => print!(rt; " -"),
        }?;
    }
    println!(rt; "")
}

/// Prints a report if turns are told, else its accounts.
fn print_text(rt: &impl Print, is_told: bool, report: &[u8]) -> io::Result<()> {
    let text = str::from_utf8(report).unwrap_or("no text");
    let (before, shown, after) = match (is_told, text.split_once("\naccounts\n")) {
        (true, _) => ("", text, "end\n"),
        (false, Some((_, accounts))) => ("accounts\n", accounts, ""),
        (false, None) => ("no accounts\n", "", ""),
    };
    print!(rt; "{before}{shown}{after}")
}

/// Prints what the parts have: the aperture, if the case asks for it; the report, if turns are told, or its accounts.
pub fn print_parts(rt: &impl Print, case: &Case, pair: &Pair) -> io::Result<()> {
    let rooms = &pair.replay.rooms;
    if case.shows_aperture {
        print_aperture(rt, rooms.aperture(), rooms.script().sizes.tt)?;
    }
    match pair.report_on_parts() {
        Ok(report) => print_text(rt, case.tells_turns, report.bytes()),
        Err(fault) => Err(no_memory(fault)),
    }
}
