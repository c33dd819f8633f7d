//! Workers on threads: a gate that looks at them, a value that counts, and the script that is drawn from a number.

mod counter;
pub mod drawn;
pub mod watch;
pub mod workers;
