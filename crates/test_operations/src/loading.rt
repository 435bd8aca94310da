// Loading: the policy of the text, "all of them, in file order and nothing else", or a refusal beside the empty policy.

use crate::policies::{
    with_columns, with_grants, with_partition_count, with_table_count, with_term, with_view_count,
    with_view_table,
};
use crate::values;
use model::{
    CONSTANT, HIDDEN, Line, MOST_COLUMNS, MOST_TABLES, MOST_VIEWS, Policy, Refusal, SHOWN, Tables,
    Term,
};
use test_expect::Said;

// "no table, view or partition, every entry unused"
fn empty() -> Policy {
    let unused = Line {
        table: 0,
        terms: [Term { mark: 0, number: 0 }; MOST_COLUMNS],
    };
    Policy {
        tables: Tables {
            count: 0,
            columns: [0; MOST_TABLES],
        },
        view_count: 0,
        views: [unused; MOST_VIEWS],
        partition_count: 0,
        grants: [0; MOST_VIEWS],
    }
}

// A text that is taken has no count in its reply.
fn told(o: Result<Policy, Refusal>) -> Said {
    match o {
        Ok(_) => test_expect::given(0),
        Err(r) => test_expect::refused(r.number, r.line),
    }
}

fn case(n: u64, text: &[u8], said: Said, policy: Policy) -> u64 {
    let at = test_expect::counted(n);
    let r = load::load(text);
    let got = told(r);
    let loaded = r.unwrap_or(load::empty_policy());
    if got != said || !values::same(loaded, policy) {
        test_expect::print_case(at, got);
        io::write_all(1, b", or loaded another policy\n");
    }
    at
}

fn loads(n: u64, text: &[u8], policy: Policy) -> u64 {
    case(n, text, test_expect::given(0), policy)
}

fn turned_back(n: u64, text: &[u8], number: u64, line: u64) -> u64 {
    case(n, text, test_expect::refused(number, line), empty())
}

// The counts, and how many columns the tables have: in each policy here one or two.
fn counts(tables: usize, first: u64, second: u64, views: usize, partitions: usize) -> Policy {
    let mut p = with_table_count(empty(), tables);
    p = with_columns(p, 0, first);
    p = with_columns(p, 1, second);
    p = with_view_count(p, views);
    with_partition_count(p, partitions)
}

// Document 01's policy: partition 1 stands at bit 0 (1) of views 2 and 3, partition 2 at bit 1 (2) of views 1 and 4.
fn example() -> Policy {
    let mut p = counts(2, 3, 2, 4, 2);
    p = with_view_table(p, 0, 1);
    p = with_term(p, 0, 0, SHOWN, 1);
    p = with_term(p, 0, 1, SHOWN, 2);
    p = with_term(p, 0, 2, SHOWN, 3);
    p = with_view_table(p, 1, 1);
    p = with_term(p, 1, 0, SHOWN, 1);
    p = with_term(p, 1, 1, SHOWN, 2);
    p = with_term(p, 1, 2, HIDDEN, 3);
    p = with_view_table(p, 2, 2);
    p = with_term(p, 2, 0, SHOWN, 1);
    p = with_term(p, 2, 1, SHOWN, 2);
    p = with_view_table(p, 3, 2);
    p = with_term(p, 3, 0, SHOWN, 1);
    p = with_term(p, 3, 1, CONSTANT, 7);
    p = with_grants(p, 0, 2);
    p = with_grants(p, 1, 1);
    p = with_grants(p, 2, 1);
    with_grants(p, 3, 2)
}

// Eight columns, numbers at their limits, and a partition without views before one with view 1, at its bit 1 (2).
fn limits() -> Policy {
    let mut p = counts(1, 8, 0, 1, 2);
    p = with_view_table(p, 0, 1);
    p = with_term(p, 0, 0, SHOWN, 0);
    p = with_term(p, 0, 1, SHOWN, 63);
    p = with_term(p, 0, 2, HIDDEN, 1);
    p = with_term(p, 0, 3, HIDDEN, 62);
    p = with_term(p, 0, 4, CONSTANT, 0);
    p = with_term(p, 0, 5, CONSTANT, 18446744073709551615);
    p = with_term(p, 0, 6, HIDDEN, 1);
    p = with_term(p, 0, 7, SHOWN, 0);
    with_grants(p, 0, 2)
}

pub fn taken(start: u64) -> u64 {
    let text =
        b"table columns\n1 3\n2 2\nview table terms\n1 1 !1 !2 !3\n2 1 !1 !2 ?3\n3 2 !1 !2\n4 2 !1 #7\npartition views\n1 2 3\n2 1 4\n";
    let mut n = loads(start, text, example());
    let text =
        b"table columns\n1 8\nview table terms\n1 1 !0 !63 ?1 ?62 #0 #18446744073709551615 ?1 !0\npartition views\n1\n2 1\n";
    n = loads(n, text, limits());
    n
}

// Whatever was read before the fault, the policy is the empty one: a fault in the last line, its end missing, in the first, in none,
// and a text that is too long.
pub fn refused(start: u64) -> u64 {
    let text =
        b"table columns\n1 3\n2 2\nview table terms\n1 1 !1 !2 !3\n2 1 !1 !2 ?3\n3 2 !1 !2\n4 2 !1 #7\npartition views\n1 2 3\n2 4 1\n";
    let mut n = turned_back(start, text, 3, 11);
    let text =
        b"table columns\n1 3\n2 2\nview table terms\n1 1 !1 !2 !3\n2 1 !1 !2 ?3\n3 2 !1 !2\n4 2 !1 #7\npartition views\n1 2 3\n2 1 4";
    n = turned_back(n, text, 1, 11);
    n = turned_back(n, b"view table terms\n", 1, 1);
    n = turned_back(n, b"", 1, 1);
    let long = [b'1'; 16385];
    n = turned_back(n, &long, 7, 0);
    n
}
