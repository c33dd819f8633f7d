use crate::making::{ensure, script_of};
use entry_reader::read_report;
use io_edge::MemSink;
use journal_model::{Entry, Script};
use page_accounts::{Account, Accounts};
use report_text::report::{write_journal, write_outcome};
use std::alloc::Global;
use std::process::Abort;
use text_line::Line;

/// Two buffers, twelve threads without commands, and two engines.
const SCRIPT: &str = "ttm 1
vram range 8
tt 4
frames 4
swap 2
engines 2
buffer a 4 prio 0 group - align 1 want sys busy sys
buffer buf10 4 prio 0 group - align 1 want sys busy sys
thread
thread
thread
thread
thread
thread
thread
thread
thread
thread
thread
thread
end
";

/// Targets are taken and given back, and a buffer is moved; packets run, of which one shows bytes, and a ghost is reaped; two places are
/// dry; and three results of two threads stand between other entries. After them the results stand by thread, numbered in each.
const REPORT: &str = "report 1
journal 13
1 t12 take a vram 0-8,10-11
2 t1 untake buf10 sys
3 t1 move a tt 2 now
4 e0 packet 1 0
5 e2 packet 1 2 00ff1a0c
6 r reap 18446744073709551615
7 t1 dry a 0 short
8 t1 dry a 1 a:pinned,buf10:reserved:5,a:outside
9 t2 result ok
10 t1 new a
11 t1 result read 07
12 e1 done 1
13 t1 refused NoBuffer
results
t1 1 read 07
t1 2 refused NoBuffer
t2 1 ok
accounts
vram size 8 free 8 live 0 target 0 ghost 0
tt size 4 free 1 live 0 target 2 ghost 1
frames size 4 free 1 live 1 target 0 ghost 2
swap size 2 free 0 live 2 target 0 ghost 0
";

const ACCOUNTS: Accounts = Accounts {
    vram: Account {
        free: 8,
        live: 0,
        target: 0,
        ghosts: 0,
    },
    tt: Account {
        free: 1,
        live: 0,
        target: 2,
        ghosts: 1,
    },
    frames: Account {
        free: 1,
        live: 1,
        target: 0,
        ghosts: 2,
    },
    swap: Account {
        free: 0,
        live: 2,
        target: 0,
        ghosts: 0,
    },
};

/// Asserts that the report of these entries is written so.
fn assert_written(rt: &impl Abort, alloc: Global, script: &Script, journal: &[Entry]) {
    let mut line = Line::new(alloc);
    let mut sink = MemSink::new(alloc, 1000, 1000, Vec::new(alloc)).expect(rt, "a sink");
    ensure(
        rt,
        write_journal(&mut line, script, journal, &mut sink).is_ok(),
    );
    ensure(
        rt,
        write_outcome(&mut line, script, journal, &ACCOUNTS, &mut sink).is_ok(),
    );
    ensure(rt, sink.bytes() == REPORT.as_bytes());
}

#[test]
fn entries_that_were_read_are_written_with_their_results(rt: HostRuntime) {
    let rt = &rt;
    let alloc = rt.alloc();
    let script = script_of(rt, alloc, SCRIPT);
    let parsed = read_report(alloc, &script, REPORT.as_bytes()).expect(rt, "memory");
    assert_written(rt, alloc, &script, parsed.entries.items());
}
