//! Tables of cases as plain text: what a program is given, and how.
//!
//! A case is these lines. Only the first, `text` and the last must be there.
//!
//! ```text
//! case NAME WORD ..     its name, and the words that the program is run with
//! chunks N ..           how many bytes a read or a write moves at most: the case is run with each number
//! read fails N ..       the reads that fail, counted from 1
//! write fails N ..      the writes that fail, counted from 1
//! compare each entry    two devices are compared turn by turn, and after each entry parts that follow one of them
//! compare at the end    the same, but the parts once, after all turns
//! steps ACTOR ..        whose turns these are: `tN`, `eN` or `r`
//! to the end            after them, turns in the simulator's order until all is over
//! tell turns            the answer to each of these turns is printed, and the report
//! mapping               after each answered command, what the first thread's mapping of the first buffer knows
//! aperture              at the end, which frame each page of TT stands for
//! draw N                the program runs the script that is drawn from a number
//! count                 workers take the turns of a value that counts; `count slowly`: a step takes some milliseconds
//! count alone           one worker takes them, without threads
//! watch                 a gate looks at the workers, and a line tells what it saw
//! watch two that meet   the same, and workers 1 and 2 wait for each other in their first turns
//! watch worker N ahead  the others wait in their first turns until worker N, 1 or 2, comes to its seventh
//! watch worker 1 held   worker 1 waits in its second turn until another comes to its third
//! turns N               how many turns the gate sees at least
//! letters N             the text begins with N letters x
//! text
//! LINE ..               the lines of the text
//! end case              or `cut case`, where the text lacks its last line feed
//! ```
#![tactic(auto)]

mod case;
mod table;

pub use case::{Case, Form, Hold, Pace, When};
use std::io::{Error, ErrorKind};
pub use table::Table;
use ttm_base::NoMemory;

/// Makes an error of input and output of a call that ran out of memory.
pub fn no_memory(_: NoMemory) -> Error {
    Error::from(ErrorKind::OutOfMemory)
}
