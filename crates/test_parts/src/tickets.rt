use crate::wanted::ensure;
use std::process::Abort;
use ttm_base::Stamp;
use ww_ticket::{Decision, Tickets, decide};

/// The ticket that asks, whether it holds something, the holder of what it asks for, and what comes of it.
type Row = (Stamp, bool, Option<Stamp>, Decision);

const ROWS: &[Row] = &[
    (Stamp(1), false, None, Decision::Take),
    (Stamp(1), true, Some(Stamp(2)), Decision::Wait(Stamp(2))),
    (Stamp(2), true, Some(Stamp(1)), Decision::Backoff(Stamp(1))),
    (Stamp(2), false, Some(Stamp(1)), Decision::Wait(Stamp(1))),
];

/// Asserts that the ticket that asks, which isn't the holder, is answered as is wanted.
fn assert_decision(rt: &impl Abort, row: &Row) {
    let (mine, holds, holder, wanted) = *row;
    ensure(rt, holder != Some(mine));
    ensure(rt, decide(mine, holds, holder) == wanted);
}

#[test]
fn younger_backs_off_and_older_waits(rt: HostRuntime) {
    for row in ROWS {
        assert_decision(&rt, row);
    }
    let mut tickets = Tickets::new();
    ensure(&rt, tickets.draw() == Stamp(1));
    ensure(&rt, tickets.next() == Stamp(2));
}
