//! Runs a table of cases (`test_cases`), and prints what came of each: of the program what it wrote and its status, and how its workers
//! were held; of two devices that are compared a line, the answers to turns and the report, and what parts have; of workers on a value
//! that counts how they ended.
#![tactic(auto)]

mod compared;
mod pieces;
mod program;
mod threaded;

use std::alloc::Global;
use std::io;
use std::io::{BufRead, BufReader};
use std::sync::Wait;
use std::thread::Threads;
use test_cases::{Form, Table};
use threaded::{drawn, workers};

/// Takes the next `line` of the table, and runs the case that it ends, if it ends one.
fn take_line(
    rt: &(impl Threads + Wait + Sync + Print),
    alloc: Global,
    table: &mut Table,
    line: &str,
) -> io::Result<()> {
    let Some(mut case) = table.take(line)? else {
        return Ok(());
    };
    match case.form {
        Form::Program => program::run(rt, alloc, &case),
        Form::Devices(when) => compared::run(rt, alloc, &case, when),
        Form::Drawn(number) => drawn::run(rt, alloc, &mut case, number),
        Form::Workers(pace) => workers::run(rt, alloc, &case, pace),
        Form::OneWorker => workers::run_alone(rt, alloc, &case),
    }
}

fn main(rt: HostRuntime) -> io::Result<()> {
    let alloc = rt.alloc();
    let lines = BufReader::new(alloc, rt.reader())?.lines(alloc);
    let mut table = Table::new(alloc);
    let mut taken = Ok(());
    for line in lines {
        taken = match line {
            Ok(line) => take_line(&rt, alloc, &mut table, line.as_str()),
            Err(fault) => Err(fault),
        };
        if taken.is_err() {
            break;
        }
    }
    taken
}
