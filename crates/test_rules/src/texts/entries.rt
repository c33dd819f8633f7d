ghost use Rattle.std.specs.Prelude.{◌≡◌, true};
ghost use Rattle.journal_model.specs.scripts.Reading.{names_of};
ghost use Rattle.journal_model.specs.scripts.ScriptRules.{is_script};

use crate::making::ensure;
use entry_reader::{names_of_script, read_entry};
use journal_model::Script;
use script_text::read_script;
use script_words::names::Names;
use std::alloc::Global;
use std::process::Abort;

const SCRIPT: &str = "ttm 1
vram range 11
tt 8
frames 8
swap 2
engines 1
buffer a 4 prio 1 group 0 align 1 want vram busy vram
buffer b 2 prio 1 group 0 align 1 want vram busy vram
buffer o 1 prio 1 group - align 1 want vram busy vram
buffer p 1 prio 1 group - align 1 want vram busy vram
buffer r 1 prio 1 group - align 1 want vram busy vram
buffer s 1 prio 1 group - align 1 want vram busy vram
buffer v 1 prio 1 group - align 1 want vram busy vram
buffer x 1 prio 1 group - align 1 want vram@0-3 busy vram@0-3
thread
thread
end
";

/// Lines with a bar between two of them. (One text of them: each text in a constant adds to the proof of the function that names it.)
struct Lines {
    text: &'static str,
    /// The number of the entry that each line is read as.
    numbers: &'static [u64],
    are_entries: bool,
}

/// Each line is the text of an entry: one of each kind as reports of examples have it, and more.
const ENTRIES: Lines = Lines {
    text: "3 t1 ticket 1\n\
|4 t1 reserve a\n\
|9 t2 backoff a 1\n\
|1 t1 new a\n\
|90 t1 free b 0\n\
|5 t1 take a vram 0-4\n\
|6 t1 take a vram 0-2,6-8\n\
|6 t1 take a sys -\n\
|14 t1 untake b vram\n\
|7 t1 populate a 0 0\n\
|62 t1 swapin v 0 1 0\n\
|35 t1 depopulate v\n\
|11 t1 bind a\n\
|15 t1 unbind a\n\
|29 t1 move b vram 2 2\n\
|22 t1 move a tt 2 now\n\
|32 t1 catch o vram\n\
|54 t1 catch o tt\n\
|54 t1 catch o swap\n\
|52 t1 loose o\n\
|75 t1 skip s\n\
|7 t1 dry s 0 short\n\
|8 t1 dry s 1 -\n\
|38 t1 dry x 0 v:skipped\n\
|76 t1 dry x 0 p:pinned,r:reserved:8,o:outside,s:skipped\n\
|51 t1 swapout v 0 1\n\
|13 t1 nopages b\n\
|6 t1 arm e1 1\n\
|6 t1 arm e7 1\n\
|13 e0 packet 1 0\n\
|16 e1 packet 1 2 00010200\n\
|17 e0 done 1\n\
|18 r reap 1\n\
|50 t1 bulk 0\n\
|50 t1 bulk 99\n\
|2 t1 result ok\n\
|2 t1 result read 0aff\n\
|2 t1 result read \n\
|19 t1 result find vram 0-4\n\
|19 t1 result find sys -\n\
|19 t1 refused NoBuffer\n\
|19 t1 refused Exists\n\
|19 t1 refused Pinned\n\
|19 t1 refused NotPinned\n\
|19 t1 refused PinMax\n\
|19 t1 refused NoSpace\n\
|16 t1 refused NoPages\n\
|16 t1 refused NoSwap\n\
|17 e0 done 18446744073709551615\n\
|7 t1 populate a 4294967295 0\n",
    numbers: &[
        3, 4, 9, 1, 90, 5, 6, 6, 14, 7, 62, 35, 11, 15, 29, 22, 32, 54, 54, 52, 75, 7, 8, 38, 76,
        51, 13, 6, 6, 13, 16, 17, 18, 50, 50, 2, 2, 2, 19, 19, 19, 19, 19, 19, 19, 19, 16, 16, 17,
        7,
    ],
    are_entries: true,
};

/// No line is the text of the entry of its number.
const OTHERS: Lines = Lines {
    text: "\
|\n\
|1\n\
|1 t1\n\
|1 t1 new\n\
|1 t1 new a\
|1 t1 new a \n\
|1 t1  new a\n\
| 1 t1 new a\n\
|1 t1 new a\n\
|01 t1 new a\n\
|1 t3 new a\n\
|1 t0 new a\n\
|1 t01 new a\n\
|1 e2 done 1\n\
|1 r1 reap 1\n\
|1 t1 New a\n\
|1 t1 new q\n\
|1 t1 new a b\n\
|1 t1 ticket 18446744073709551616\n\
|1 t1 ticket 00\n\
|1 t1 ticket -1\n\
|1 t1 populate a 4294967296 0\n\
|1 t1 take a vram 4-4\n\
|1 t1 take a vram 4-0\n\
|1 t1 take a vram 0-4294967296\n\
|1 t1 take a vram \n\
|1 t1 take a vram 0-4,\n\
|1 t1 take a vram 0-4,-\n\
|1 t1 take a gart 0-4\n\
|1 t1 dry s 0 p:reserved\n\
|1 t1 dry s 0 p:pinned:1\n\
|1 t1 dry s 0 q:pinned\n\
|1 t1 dry s 0 p\n\
|1 t1 arm t1 1\n\
|1 e1 packet 1 0 \n\
|1 e1 packet 1 0 0\n\
|1 e1 packet 1 0 0A\n\
|1 t1 result read\n\
|1 t1 refused NoBuffers\n",
    numbers: &[
        1, 1, 1, 1, 1, 1, 1, 1, 1, 2, 1, 1, 1, 1, 1, 1, 1, 1, 1, 1, 1, 1, 1, 1, 1, 1, 1, 1, 1, 1,
        1, 1, 1, 1, 1, 1, 1, 1, 1, 1,
    ],
    are_entries: false,
};

/// Asserts that the line is the text of the entry of this number, or isn't.
fn assert_line(
    rt: &impl Abort,
    alloc: Global,
    script: &Script,
    names: &Names,
    n: u64,
    line: &str,
    is_entry: bool,
)
    requires script { is_script script.now ≡ true }
    requires declared { names.now ≡ names_of script.now.buffers }
{
    match read_entry(alloc, script, names, n, line.as_bytes()) {
        Ok(entry) => ensure(rt, entry.is_some() == is_entry),
        Err(_) => ensure(rt, false),
    }
}

/// Asserts that each line is read as told.
fn assert_lines(rt: &impl Abort, alloc: Global, script: &Script, names: &Names, lines: &Lines)
    requires script { is_script script.now ≡ true }
    requires declared { names.now ≡ names_of script.now.buffers }
{
    let mut left = lines.text.split('|');
    for n in lines.numbers {
        match left.next() {
            Some(line) => assert_line(rt, alloc, script, names, *n, line, lines.are_entries),
            None => ensure(rt, false),
        }
    }
    ensure(rt, left.next().is_none());
}

#[test]
fn lines_of_entries(rt: HostRuntime) {
    let rt = &rt;
    let alloc = rt.alloc();
    let script = read_script(alloc, SCRIPT.as_bytes()).expect(rt, "a script");
    let names = names_of_script(alloc, &script).expect(rt, "names");
    assert_lines(rt, alloc, &script, &names, &ENTRIES);
    assert_lines(rt, alloc, &script, &names, &OTHERS);
}
