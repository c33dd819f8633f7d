use crate::making::ensure;
use script_spelling::write_script;
use script_text::read_script;
use std::alloc::{AllocError, Global};
use std::process::Abort;

/// A text: what stands above a line, the line, more at its end, and how often.
#[derive(Clone, Copy)]
struct Row {
    front: &'static str,
    line: &'static str,
    more: &'static str,
    count: u32,
}

/// The row of a thread with mappings.
const MAPPED: Row = Row {
    front: "ttm 2
vram range 8
tt 8
frames 8
swap 2
engines 2
buffer a 2 prio 1 group - align 1 place sys
buffer b 1 prio 1 group - align 1 place vram,tt+fallback
thread
new a
map a
vmap 0 2 a 0
vmap 2 1 b 0
",
    line: "",
    more: "",
    count: 0,
};

/// Rows of scripts. By name a job has at most 64 operations, and by all jobs 64 MiB are filled at most.
const ROWS: &[Row] = &[
    Row {
        front: "ttm 1
vram range 0
tt 0
frames 2
swap 0
engines 0
buffer a 2 prio 1 group - align 1 want sys busy sys
thread
new a
write a 4094 0102
",
        line: "read a 4093 4",
        ..MAPPED
    },
    Row {
        front: "ttm 1
vram range 0
tt 0
frames 2
swap 0
engines 1
buffer a 4096 prio 0 group - align 1 want sys busy sys
thread
",
        line: "submit 1 fill a 0 16777216 00",
        more: " ; fill a 0 16777216 00",
        count: 3,
    },
    Row {
        line: "map b",
        ..MAPPED
    },
    Row {
        line: "unmap a",
        ..MAPPED
    },
    Row {
        line: "peek a 0 4",
        ..MAPPED
    },
    Row {
        line: "vmap 1048575 1 a 0",
        ..MAPPED
    },
    Row {
        line: "vunmap 5 1",
        ..MAPPED
    },
    Row {
        line: "vsubmit 1 fill 0 1 00",
        ..MAPPED
    },
    Row {
        line: "vsubmit 1 fill 12287 1 00",
        ..MAPPED
    },
    Row {
        line: "vsubmit 1 copy 0 8192 1",
        ..MAPPED
    },
    Row {
        line: "vsubmit 1 probe 0 256",
        ..MAPPED
    },
    Row {
        line: "vsubmit 1 fill 0 1 00",
        more: " ; fill 0 1 00",
        count: 63,
        ..MAPPED
    },
    Row {
        line: "vsubmit 1 fill 8191 2 00",
        more: " ; fill 8191 2 00",
        count: 31,
        ..MAPPED
    },
];

/// Returns the script of a row.
fn text_of(alloc: Global, row: &Row) -> Result<String, AllocError> {
    let mut more = String::new(alloc);
    for _ in 0..row.count {
        more.push_str(row.more)?;
    }
    let (front, line) = (row.front, row.line);
    format!(in alloc; "{front}{line}{more}\nend\n")
}

/// Returns whether the text is a script and is spelled as it was written.
fn is_spelled(alloc: Global, text: &[u8]) -> bool {
    match read_script(alloc, text) {
        Ok(script) => match write_script(alloc, &script) {
            Ok(spelling) => spelling.as_slice() == text,
            Err(_) => false,
        },
        Err(_) => false,
    }
}

#[test]
fn scripts_are_spelled_as_they_were_read(rt: HostRuntime) {
    for row in ROWS {
        let text = text_of(rt.alloc(), row).expect(&rt, "a script");
        ensure(&rt, is_spelled(rt.alloc(), text.as_bytes()));
    }
}
