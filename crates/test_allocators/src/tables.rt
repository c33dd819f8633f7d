use crate::wanted::ensure;
use sparse_table::SparseTable;
use std::process::Abort;

/// Places with the numbers that are set there, in three pieces of the table.
const SET: &[(usize, u32)] = &[(0, 7), (1023, 8), (1024, 9), (4999, 10)];

/// Places where none is set, also beyond the table.
const UNSET: &[(usize, u32)] = &[(1, 0), (1025, 0), (3000, 0), (4998, 0), (5000, 0)];

/// Sets the number at `at`, which is in the table.
fn set(rt: &impl Abort, table: &mut SparseTable, at: usize, number: u32) {
    ensure(rt, at < table.len());
    table.set(at, number).expect(rt, "a piece");
}

/// Sets the numbers.
fn set_all(rt: &impl Abort, table: &mut SparseTable, numbers: &[(usize, u32)]) {
    for (at, number) in numbers {
        set(rt, table, *at, *number);
    }
}

/// Asserts that the table has the numbers.
fn assert_numbers(rt: &impl Abort, table: &SparseTable, numbers: &[(usize, u32)]) {
    for (at, number) in numbers {
        ensure(rt, table.get(*at) == *number);
    }
}

#[test]
fn numbers_by_place(rt: HostRuntime) {
    let rt = &rt;
    let mut table = SparseTable::new(rt.alloc(), 5000).expect(rt, "a table");
    set_all(rt, &mut table, SET);
    assert_numbers(rt, &table, SET);
    assert_numbers(rt, &table, UNSET);
    ensure(rt, table.get(1024) == 9);
    table.replace(1024, 0);
    assert_numbers(rt, &table, &[(1024, 0), (1023, 8)]);
    drop(table);
}
