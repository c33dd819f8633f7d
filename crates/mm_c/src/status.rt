//! The outcome of a call, as C has it. Each status but `DONE` leaves the manager as it was.

pub const DONE: u32 = 0;
/// No free pages meet the request, or pages of it are held (ENOSPC).
pub const NO_ROOM: u32 = 1;
/// Lack of memory for the manager's own use (ENOMEM).
pub const NO_MEMORY: u32 = 2;
/// A request without a meaning: an unknown mode, or no pages to keep (EINVAL).
pub const INVALID: u32 = 3;
/// Nothing that is held begins there, or is the given block.
pub const NOT_HELD: u32 = 4;
/// More blocks than the caller's array takes.
pub const TOO_MANY: u32 = 5;
/// No more is held, or free, from the page on.
pub const NO_MORE: u32 = 6;
