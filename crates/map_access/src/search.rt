//! Searching the marks of a script for those of a thread's commands.
ghost use Rattle.std.specs.Prelude.{◌≡◌, ◌+◌, ◌<◌, ◌≤◌, ◌&&◌, true, false, IsTrue, drop, length};
ghost use Rattle.std.specs.List.Sorted.{IsPartitionPoint};
ghost use Rattle.journal_model.specs.scripts.MarkRules as rules;
ghost use Rattle.journal_model.specs.scripts.ScriptRules.{is_script};
ghost use Rattle.map_access.specs.Parts as words;
ghost use Rattle.map_access.specs.Parts.{IsPart};

use journal_model::{Mark, Script};
use std::marker::Model;

/// Returns whether `mark` stands before the lines of `thread` that follow `n` commands or more.
fn is_before(thread: u64, n: u64, mark: &Mark) -> bool
    ensures { result ≡ words.is_before thread n mark.now }
{
    let of = u64::from(mark.thread);
    of < thread || (of == thread && u64::from(mark.after) < n)
}

/// Returns whether `mark` stands before the lines of `thread` that follow more than `n` commands.
fn is_up_to(thread: u64, n: u64, mark: &Mark) -> bool
    ensures { result ≡ words.is_up_to thread n mark.now }
{
    let of = u64::from(mark.thread);
    of < thread || (of == thread && u64::from(mark.after) <= n)
}

/// Returns how many of `marks` stand before the lines of `thread` that follow `n` commands or more.
fn count_before(marks: &[Mark], thread: u64, n: u64) -> usize
    requires { rules.are_in_order marks.now ≡ true }
    ensures bound { result ≤ length marks.now }
    ensures point { IsPartitionPoint (λ m. words.is_before thread n m ≡ true) (λ m. words.is_before thread n m ≡ false) marks.now result }
{
    marks.partition_point(|mark| is_before(thread, n, mark))
}

/// Returns how many of `marks` stand before the lines of `thread` that follow more than `n` commands.
fn count_up_to(marks: &[Mark], thread: u64, n: u64) -> usize
    requires { rules.are_in_order marks.now ≡ true }
    ensures bound { result ≤ length marks.now }
    ensures point { IsPartitionPoint (λ m. words.is_up_to thread n m ≡ true) (λ m. words.is_up_to thread n m ≡ false) marks.now result }
{
    marks.partition_point(|mark| is_up_to(thread, n, mark))
}

/// Returns the lines of `thread` among `marks`, which stand in order, that follow from `first` to `last` commands.
fn part_in_order(marks: &[Mark], thread: u64, first: u64, last: u64) -> &[Mark]
    requires { rules.are_in_order marks.now ≡ true }
    ensures { IsPart thread first last result.now marks.now }
{
    let rest = &marks[count_before(marks, thread, first)..];
    &rest[..count_up_to(rest, thread, last)]
}

/// Returns whether `mark` may stand above `next`.
fn is_above(mark: &Mark, next: &Mark) -> bool
    ensures { result ≡ rules.is_above mark.now next.now }
{
    mark.thread < next.thread || (mark.thread == next.thread && mark.after <= next.after)
}

/// Returns whether the mark at `i` may stand above the next one.
fn is_above_next(marks: &[Mark], i: usize) -> bool
    requires { i + 1 < length marks.now }
    ensures { rules.are_in_order (drop i marks.now) ≡ (result && rules.are_in_order (drop (i + 1) marks.now)) }
{
    let mark = &marks[i];
    let next = &marks[i + 1];
    is_above(mark, next)
}

/// Returns whether `marks` stand in rising order of threads and of commands.
fn are_in_order(marks: &[Mark]) -> bool
    ensures { result ≡ rules.are_in_order marks.now }
{
    for i in 0..marks.len().saturating_sub(1) {
        if !is_above_next(marks, i) {
            return false;
        }
    }
    true
}

/// A script whose marks are searched, seen as the script.
#[derive(Drop)]
pub struct MarkSearch<'a> {
    script: &'a Script,
    /// Whether the marks are known to stand in order.
    in_order: bool,
    /// Whether the script is known to keep the rules of scripts.
    keeps_rules: bool,
}

impl<'a> Model for MarkSearch<'a> {
    ghost use Rattle.journal_model.specs.declared.script.Script.{Script};

    ghost Value = { Script };

    ghost view = { λ s. s.script.now };

    ghost use Rattle.map_access.specs.Known.{IsKnown};

    ghost invariant = { λ s. IsKnown s.in_order s.keeps_rules s.script.now };
}

impl<'a> MarkSearch<'a> {
    /// Searches a script of which nothing is known. Walks its marks once.
    pub fn new(script: &'a Script) -> MarkSearch<'a>
        ensures { result ≡ script.now }
    {
        MarkSearch {
            script,
            in_order: are_in_order(script.marks.items()),
            keeps_rules: false,
        }
    }

    /// Searches a script that keeps the rules of scripts, so that its marks stand in order.
    #[tactic(auto, using(crate::proofs::Order::script_order))]
    pub fn of_script(script: &'a Script) -> MarkSearch<'a>
        requires { IsTrue (is_script script.now) }
        ensures { result ≡ script.now }
    {
        MarkSearch {
            script,
            in_order: true,
            keeps_rules: true,
        }
    }

    /// Returns whether the marks are known to stand in order.
    pub(crate) fn is_in_order(&self) -> bool
        ensures { result ≡ true → rules.are_in_order self.now.marks ≡ true }
    {
        self.in_order
    }

    /// Returns whether the script is known to keep the rules of scripts.
    pub(crate) fn keeps_rules(&self) -> bool
        ensures { result ≡ true → is_script self.now ≡ true }
    {
        self.keeps_rules
    }

    /// Returns the script.
    pub fn script(&self) -> &Script
        ensures { result.now ≡ self.now }
    {
        self.script
    }

    /// Returns a part of the marks in which all lines of `thread` are that follow from `first` to `last` commands, and no others where the marks
    /// stand in order.
    pub fn part(&self, thread: u64, first: u64, last: u64) -> &[Mark]
        ensures { IsPart thread first last result.now self.now.marks }
    {
        let marks = self.script.marks.items();
        if self.in_order {
            part_in_order(marks, thread, first, last)
        } else {
            marks
        }
    }
}
