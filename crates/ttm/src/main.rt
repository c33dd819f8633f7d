//! Runs scripts of a graphics memory manager, and reports each step.
#![tactic(auto)]

use command_words::Words;
use io_edge::{StdSink, StdSource};
use std::alloc::Global;
use std::env;
use std::io::ErrorKind;
use std::process::ExitCode;
use std::rt::Env;
use thread_program::{Status, ttm_top};
use ttm_base::NoMemory;
use worker_pool::IdleGate;

/// Returns the words after the program's name. Where one isn't text (UTF-8), the library tells none, and no words ask for nothing that the
/// program knows.
///
/// # Errors
///
/// Lack of memory.
fn words_of(rt: &(impl Env + Alloc), alloc: Global) -> Result<Words, NoMemory> {
    let mut words = Words::new(alloc);
    match env::args(rt) {
        Ok(all) => {
            for word in all.skip(1) {
                words.push(word.as_str())?;
            }
            Ok(words)
        }
        Err(fault) if fault.kind() == ErrorKind::InvalidData => Ok(words),
        Err(_) => Err(NoMemory),
    }
}

fn main(rt: HostRuntime) -> ExitCode {
    let mut source = StdSource::new(rt.stdin());
    let mut sink = StdSink::new(rt.stdout());
    let status = match words_of(&rt, rt.alloc()) {
        Ok(words) => ttm_top(&rt, rt.alloc(), &words, &mut source, &mut sink, &IdleGate),
        Err(NoMemory) => Status::NoMemory,
    };
    ExitCode::from(status.code())
}
