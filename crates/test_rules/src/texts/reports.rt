ghost use Rattle.std.specs.Prelude.{◌≡◌, true};
ghost use Rattle.journal_model.specs.scripts.ScriptRules.{is_script};

use crate::making::{ensure, script_of};
use journal_model::Script;
use report_text::{Rule, read_report};
use std::alloc::Global;
use std::process::Abort;

const SCRIPT: &str = "ttm 1
vram range 0
tt 0
frames 1
swap 0
engines 0
buffer a 1 prio 1 group - align 1 want sys busy sys
thread
new a
end
";

/// Reports, the number of entries that are read, the position after them, and the entry from which on there are no more, with the rule that
/// it breaks.
const REPORTS: &[(&str, usize, usize, Option<(u64, Rule)>)] = &[
    (
        "report 1\njournal 2\n1 t1 new a\n2 t1 result ok\nresults\n",
        2,
        45,
        None,
    ),
    (
        "report 1\njournal 2\n1 t1 new a\n2 t1 result ok\n",
        2,
        45,
        None,
    ),
    ("report 1\njournal 0\n1 t1 new a\n", 0, 19, None),
    ("report 1\njournal 0\n", 0, 19, None),
    (
        "report 1\njournal 3\n1 t1 new a\n2 t1 result ok\nresults\n",
        2,
        45,
        Some((3, Rule::Line)),
    ),
    (
        "report 1\njournal 18446744073709551615\n1 t1 new a\n",
        1,
        49,
        Some((2, Rule::Line)),
    ),
    (
        "report 1\njournal 2\n1 t1 new a\n1 t1 result ok\n",
        1,
        30,
        Some((2, Rule::Line)),
    ),
    (
        "report 1\njournal 2\n1 t1 new a\n2 t1 result ok",
        1,
        30,
        Some((2, Rule::Line)),
    ),
    ("", 0, 0, Some((0, Rule::Head))),
    ("report 1\n", 0, 0, Some((0, Rule::Head))),
    ("report 2\njournal 0\n", 0, 0, Some((0, Rule::Head))),
    (
        "report 1\njournal 18446744073709551616\n",
        0,
        0,
        Some((0, Rule::Head)),
    ),
    ("report 1\njournal 00\n", 0, 0, Some((0, Rule::Head))),
    ("report 1\njournal 0", 0, 0, Some((0, Rule::Head))),
];

/// Asserts that the report is read up to where it is told.
fn assert_report(
    rt: &impl Abort,
    alloc: Global,
    script: &Script,
    text: &str,
    entries: usize,
    rest: usize,
    bad: Option<(u64, Rule)>,
)
    requires { is_script script.now ≡ true }
{
    let parsed = read_report(alloc, script, text.as_bytes()).expect(rt, "memory");
    ensure(rt, parsed.entries.len() == entries && parsed.rest == rest);
    match (parsed.bad, bad) {
        (Some(found), Some((entry, rule))) => ensure(
            rt,
            found.entry == entry && found.rule == rule,
        ),
        (None, None) => {}
        _ => ensure(rt, false),
    }
}

#[test]
fn reports_up_to_a_fault(rt: HostRuntime) {
    let alloc = rt.alloc();
    let script = script_of(&rt, alloc, SCRIPT);
    for (text, entries, rest, bad) in REPORTS {
        assert_report(&rt, alloc, &script, text, *entries, *rest, *bad);
    }
}
