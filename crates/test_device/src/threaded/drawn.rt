use crate::pieces::print_all;
use crate::program;
use crate::program::{Outcome, outcome_of};
use crate::threaded::watch::Watch;
use generated_load::generated;
use sha2::{Digest, Sha256};
use std::alloc::Global;
use std::io;
use std::sync::Wait;
use std::thread::Threads;
use test_cases::{Case, no_memory};

/// The number of bytes that a read or a write moves at most.
const CHUNK: usize = 4096;

/// Returns the results of the commands in a report.
fn results_of(report: &str) -> &str {
    let Some((_, after)) = report.split_once("\nresults\n") else {
        return "";
    };
    match after.split_once("\naccounts\n") {
        Some((results, _)) => results,
        None => "",
    }
}

/// Returns how many results there are, how many of them are refusals, and what the lines of what was read come to.
fn counts_of(results: &str) -> (u64, u64, Sha256) {
    let mut reads = Sha256::new();
    let mut count = 0u64;
    let mut refused = 0u64;
    for line in results.lines() {
        count = count.saturating_add(1);
        refused = refused.saturating_add(u64::from(line.contains("refused")));
        if line.contains(" read ") {
            reads.update(line.as_bytes());
            reads.update(b"\n");
        }
    }
    (count, refused, reads)
}

/// Prints what the `watch` saw of a run, its status, how many results its report has, how many of them are refusals, and the digest (SHA-256) of the lines of what was read: they
/// are the same in all interleavings, since no thread touches another's buffers.
fn print_results(
    rt: &impl Print,
    alloc: Global,
    case: &Case,
    watch: &Watch,
    outcome: &Outcome,
) -> io::Result<()> {
    watch.print(rt, case)?;
    let report = str::from_utf8(outcome.output.bytes()).unwrap_or("");
    let (results, refused, reads) = counts_of(results_of(report));
    let digest = hex::encode(alloc, reads.finalize())?;
    print_all(
        rt,
        &[
            ("status ", Some(u64::from(outcome.status))),
            (", ", Some(results)),
            (" results, ", Some(refused)),
            (" refused, reads ", None),
            (digest.as_str(), None),
            ("\n", None),
        ],
    )
}

/// Makes of a case the one in which `check` judges its text.
fn ask_for_verdict(alloc: Global, case: &mut Case) -> io::Result<()> {
    case.watched = None;
    case.words.clear();
    case.words.push(String::from_str(alloc, "check")?)?;
    case.name.clear();
    case.name.push_str("check")?;
    Ok(())
}

/// Prints what a run on threads came to, puts its report behind its script, and makes of the case the one that has both checked.
fn keep_run(
    rt: &impl Print,
    alloc: Global,
    case: &mut Case,
    watch: &Watch,
    outcome: &Outcome,
) -> io::Result<()> {
    print_results(rt, alloc, case, watch, outcome)?;
    case.text.extend_from_slice(outcome.output.bytes())?;
    ask_for_verdict(alloc, case)
}

/// Runs a drawn script on threads, after which the case is the one that has its report checked.
fn run_drawn(
    rt: &(impl Threads + Wait + Sync + Print),
    alloc: Global,
    case: &mut Case,
) -> io::Result<()> {
    let watch = Watch::new(case.watched);
    let outcome = outcome_of(rt, alloc, case, CHUNK, &watch)?;
    keep_run(rt, alloc, case, &watch, &outcome)
}

/// Prints the digest of a case's text.
fn print_digest(rt: &impl Print, alloc: Global, case: &Case) -> io::Result<()> {
    let digest = hex::encode(alloc, Sha256::digest(case.text.as_slice()))?;
    let name = case.name.as_str();
    println!(rt; "case {name}, script {digest}")
}

/// Draws a script from a number, and prints the digest of its text. If the case has words, runs it on threads, and has its report checked.
pub fn run(
    rt: &(impl Threads + Wait + Sync + Print),
    alloc: Global,
    case: &mut Case,
    number: u64,
) -> io::Result<()> {
    case.text = generated(alloc, number).map_err(no_memory)?;
    print_digest(rt, alloc, case)?;
    if case.words.is_empty() {
        return Ok(());
    }
    run_drawn(rt, alloc, case)?;
    program::run(rt, alloc, case)
}
