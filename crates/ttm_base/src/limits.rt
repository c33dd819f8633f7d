//! Sizes and limits that definitions, scripts and code share.

/// The size of a page, of a frame and of a swap slot in bytes.
pub const PAGE_BYTES: u32 = 4096;

/// The greatest length of a script in bytes.
pub const MAX_SCRIPT_BYTES: usize = 1_048_576;

/// The greatest length of an input of `check`, which is a script and its report, in bytes.
pub const MAX_CHECK_BYTES: usize = 68_157_440;

/// The greatest number of threads of a script.
pub const MAX_THREADS: usize = 16;

/// The greatest number of lines of a thread: its commands and its marks.
pub const MAX_THREAD_LINES: u32 = 4096;

/// The greatest number of buffers that a script declares.
pub const MAX_BUFFERS: usize = 256;

/// The greatest size of a buffer in pages.
pub const MAX_BUFFER_PAGES: u32 = 4096;

/// The greatest alignment in pages.
pub const MAX_ALIGN: u32 = 4096;

/// The greatest number of places of a placement.
pub const MAX_PLACES: usize = 8;

/// The greatest number of pages of VRAM, of pages of TT, and of frames.
pub const MAX_MEMORY_PAGES: u32 = 16_384;

/// The greatest number of swap slots.
pub const MAX_SLOTS: u32 = 32_768;

/// The greatest number of engines of a script, not counting the move engine.
pub const MAX_ENGINES: u32 = 8;

/// The number of fence contexts: one of the move engine, and one of each engine of a script.
pub const CONTEXTS: usize = 9;

/// The number of groups for bulk moves.
pub const GROUPS: u32 = 16;

/// The greatest number of pins of a buffer.
pub const MAX_PINS: u8 = 255;

/// The greatest number of buffers that a job names.
pub const MAX_JOB_BUFFERS: usize = 16;

/// The greatest number of operations of a job.
pub const MAX_JOB_OPS: usize = 64;

/// The greatest number of actors of a `schedule` line.
pub const MAX_LINE_ACTORS: usize = 64;

/// The greatest number of bytes of a read, a write or a probe.
pub const MAX_SHOWN_BYTES: u32 = 256;

/// The greatest number of bytes of all operations of a script together.
pub const MAX_OP_BYTES: u32 = 67_108_864;

/// The size of the address space of a thread in pages.
pub const SPACE_PAGES: u32 = 1_048_576;
