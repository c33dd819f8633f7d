//! Comparison of two devices, that on its parts and that by the definitions: they take the same turns, and parts that are given the plain
//! device's entries follow. A line tells that all agree, or what differs first.

ghost use Rattle.std.specs.Prelude.{OnOk};
ghost use Rattle.test_device.specs.Steps.{AreInStep};

mod accounts;
mod bytes;
mod difference;
mod pair;
mod parts;
mod replay;
mod report;
mod told;

use crate::pieces::print_all;
use difference::{Difference, Stop, agree, printed};
use pair::Pair;
use std::alloc::Global;
use std::io;
use std::io::{Error, ErrorKind};
use test_cases::{Case, When};
use told::{print_mapping, print_parts, print_turn};

/// The number of turns in the simulator's order that follow the steps of a case at most.
const MOST_TURNS: usize = 1_000_000;

/// Takes the turn that a case lists at `at`, from 0, or behind the last of these one in the simulator's order, if the case goes on to the
/// end. Returns whether there was one.
fn take_turn(rt: &impl Print, pair: &mut Pair, case: &Case, at: usize) -> Result<bool, Stop>
    requires { AreInStep pair.old.replay.plain pair.old.replay.rooms }
    ensures { OnOk result (AreInStep pair.new.replay.plain pair.new.replay.rooms) }
{
    match case.steps.as_slice().get(at) {
        Some(who) => match pair.step(*who) {
            Ok(turn) => printed(print_turn(rt, case, *who, turn), true),
            Err(stop) => Err(stop),
        },
        None if case.to_the_end => match pair.step_next() {
            Ok(is_taken) => printed(
                print_mapping(rt, case, is_taken, &pair.asked.device),
                is_taken,
            ),
            Err(stop) => Err(stop),
        },
        None => Ok(false),
    }
}

/// Takes all turns of a case, and compares what there is before, after each and at the end.
fn take_all(rt: &impl Print, pair: &mut Pair, case: &Case) -> Result<(), Stop>
    requires { AreInStep pair.old.replay.plain pair.old.replay.rooms }
{
    pair.compare_turn(true)?;
    for at in 0..case.steps.len().saturating_add(MOST_TURNS) {
        if !take_turn(rt, pair, case, at)? {
            return pair.compare_end();
        }
    }
    agree(false, "no end")
}

/// Returns the words for the number of turns for which memory was lacking, and the number, if there was such a turn.
fn words_of_refused(refused: u64) -> (&'static str, Option<u64>) {
    if refused == 0 {
        ("", None)
    } else {
        (", refused memory: ", Some(refused))
    }
}

/// Prints that all agree, or what differs and after how many turns, and the number of turns that were `refused` memory.
fn print_found(
    rt: &impl Print,
    turns: u64,
    entries: usize,
    refused: u64,
    found: Result<(), Stop>,
) -> io::Result<()> {
    let turns = Some(turns);
    let entries = Some(entries as u64);
    let refused = words_of_refused(refused);
    let end = ("\n", None);
    match found {
        Ok(()) => print_all(
            rt,
            &[
                ("agree, ", turns),
                (" turns, ", entries),
                (" entries", None),
                refused,
                end,
            ],
        ),
        Err(Stop::Differs(Difference { what, number })) => print_all(
            rt,
            &[
                ("differ at turn ", turns),
                (": ", None),
                (what, number),
                refused,
                end,
            ],
        ),
        Err(Stop::NoOutput) => Err(Error::from(ErrorKind::WriteZero)),
        Err(_) => Err(Error::from(ErrorKind::OutOfMemory)),
    }
}

/// Runs both devices as a case asks, and prints what came of it.
fn run_on(rt: &impl Print, case: &Case, pair: &mut Pair) -> io::Result<()>
    requires { AreInStep pair.old.replay.plain pair.old.replay.rooms }
{
    let found = take_all(rt, pair, case);
    let name = case.name.as_str();
    print!(rt; "{name}: ")?;
    let entries = pair.asked.device.journal().len();
    print_found(rt, pair.turns, entries, pair.asked.refused, found)?;
    match pair.when {
        When::EachEntry => print_parts(rt, case, pair),
        When::AtTheEnd => Ok(()),
    }
}

/// Runs a case on two devices and parts of its own.
pub fn run(rt: &impl Print, alloc: Global, case: &Case, when: When) -> io::Result<()> {
    match Pair::of(alloc, case.text.as_slice(), when) {
        Ok(mut pair) => run_on(rt, case, &mut pair),
        Err(Stop::NoScript) => {
            let name = case.name.as_str();
            println!(rt; "{name}: no script")
        }
        Err(_) => Err(Error::from(ErrorKind::OutOfMemory)),
    }
}
