//! Tests of reading scripts, entries and reports, and of writing what was read again.

mod entries;
mod reports;
mod scripts;
mod written;
