// Opening a session: every partition open, partition n at bit n - 1, or 8 with none open.

use crate::policies::{
    with_columns, with_grants, with_partition_count, with_table_count, with_term, with_view_count,
    with_view_table,
};
use desk::Session;
use model::{Policy, Refusal};
use test_expect::Said;

// A session that is opened has no count in its reply.
fn told(o: Result<Session, Refusal>) -> Said {
    match o {
        Ok(_) => test_expect::given(0),
        Err(r) => test_expect::refused(r.number, r.line),
    }
}

fn case(n: u64, p: Policy, expected: Said, mask: u64) -> u64 {
    let at = test_expect::counted(n);
    let o = desk::open_session(p);
    let got = told(o);
    let session = o.unwrap_or(Session { mask: 0 });
    if got != expected || session.mask != mask {
        test_expect::print_case(at, got);
        io::write_all(1, b", open ");
        io::print_decimal(1, session.mask);
        io::write_all(1, b"\n");
    }
    at
}

// A policy under which these partitions are opened.
fn opens(n: u64, p: Policy, mask: u64) -> u64 {
    case(n, p, test_expect::given(0), mask)
}

// A value that no text gives.
fn turned_back(n: u64, p: Policy) -> u64 {
    case(n, p, test_expect::refused(8, 0), 0)
}

// Two, three and 32 partitions; and values made by hand that a text gives: a third partition without views, view 4 with
// other constants, view 3 in partition 2 too (1 + 2), and eight columns for a table without views.
pub fn of_loaded(p: Policy, wider: Policy, widest: Policy, start: u64) -> u64 {
    let mut n = opens(start, p, 3);
    n = opens(n, wider, 7);
    n = opens(n, widest, 4294967295);
    n = opens(n, with_partition_count(p, 3), 7);
    for constant in [4294967295, 4294967296, 18446744073709551615] {
        n = opens(n, with_term(p, 3, 1, 1, constant), 3);
    }
    n = opens(n, with_grants(p, 2, 3), 3);
    opens(n, with_columns(wider, 2, 8), 7)
}

// The empty policy; counts of 0 and past the limits; and counts that leave out what stands there, or take in what does not.
pub fn of_counts(p: Policy, start: u64) -> u64 {
    let mut n = turned_back(start, load::empty_policy());
    for count in [0, 1, 33] {
        n = turned_back(n, with_partition_count(p, count));
    }
    for count in [0, 3, 5, 33] {
        n = turned_back(n, with_view_count(p, count));
    }
    for count in [0, 1, 3, 17] {
        n = turned_back(n, with_table_count(p, count));
    }
    n
}

// Columns of 0 and 9, with views and without, and where there is no table; partition 1 with view 5, which is not declared; view 1
// with every bit, and in partition 3, which is not declared, beside partition 2 (2 + 4).
pub fn of_tables_and_partitions(p: Policy, wider: Policy, start: u64) -> u64 {
    let mut n = turned_back(start, with_columns(p, 0, 0));
    n = turned_back(n, with_columns(p, 0, 9));
    n = turned_back(n, with_columns(wider, 2, 0));
    n = turned_back(n, with_columns(wider, 2, 9));
    n = turned_back(n, with_columns(p, 2, 1));
    n = turned_back(n, with_grants(p, 4, 1));
    n = turned_back(n, with_grants(p, 0, 18446744073709551615));
    turned_back(n, with_grants(p, 0, 6))
}

// A view of no table, of an unknown one, with terms and without, and behind the last.
pub fn of_views(p: Policy, start: u64) -> u64 {
    let mut n = start;
    for table in [0, 3, 17, 18446744073709551615] {
        n = turned_back(n, with_view_table(p, 0, table));
    }
    let no_terms = with_term(with_term(p, 3, 0, 0, 0), 3, 1, 0, 0);
    n = turned_back(n, no_terms);
    n = turned_back(n, with_view_table(no_terms, 3, 3));
    turned_back(n, with_view_table(p, 4, 1))
}

// Terms of view 3 (`2 !1 !2`): marks are 1 a constant, 2 shown, 3 hidden, and 0 with the number 0 unused.
pub fn of_terms(p: Policy, start: u64) -> u64 {
    // an unused term marked, or numbered
    let mut n = turned_back(start, with_term(p, 2, 2, 1, 0));
    n = turned_back(n, with_term(p, 2, 2, 2, 3));
    n = turned_back(n, with_term(p, 2, 7, 0, 1));
    let terms_of_column_2 = [
        // a column left unused, numbered or not, and a mark that is none
        (0, 0),
        (0, 63),
        (0, 18446744073709551615),
        (4, 2),
        // past the limits
        (2, 64),
        (3, 64),
        (2, 4294967298),
        (3, 18446744073709551615),
        // 1 both shown and hidden
        (3, 1),
    ];
    for (mark, number) in terms_of_column_2 {
        n = turned_back(n, with_term(p, 2, 1, mark, number));
    }
    // behind the last view
    turned_back(n, with_term(p, 31, 7, 2, 1))
}
