// Pseudo-random queries, each beside all sets of views, and counted by what they are due.

ghost use Rattle.std.specs.Prelude.{◌<◌, ◌≤◌};

use crate::drawing::{ALL, Drawn};
use crate::{cells, compare, drawing, subsets, texts};
use test_expect::Said;

const QUERIES: u64 = 4000;

// What the queries are drawn from.
const START: u64 = 88172645463325252;

// What a query is due: the views of its list, and its kind, which is their number, or NOTHING where no list will do.
#[derive(Clone, Copy)]
struct Due {
    views: u64,
    kind: usize,
}

const NOTHING: usize = 8;

// There are at most seven views; the remainder says so.
fn due_of(d: Drawn) -> Due
    requires { d.lines ≤ 8 }
    ensures { result.kind < 9 }
{
    if subsets::lacks_views(d) {
        return Due {
            views: 0,
            kind: NOTHING,
        };
    }
    let views = subsets::best(d);
    let count = u64::count_ones(views) % 8;
    Due {
        views,
        kind: count as usize,
    }
}

fn said(kind: usize) -> Said {
    if kind == NOTHING {
        return test_expect::nothing();
    }
    test_expect::given(kind as u64)
}

// Whether a partition that grants these views settles the query.
fn is_settled(granted: u64, text: &[u8]) -> bool {
    let mut words = [0; 8];
    match desk::explain(texts::policy(granted), 1, text, &mut words) {
        Ok(e) => e.is_settled,
        Err(_) => false,
    }
}

// "with the list added the partition determines the query", "and after `none` not with any".
fn is_kept(d: Drawn, due: Due, text: &[u8]) -> bool {
    if due.kind == NOTHING {
        return !is_settled(ALL, text);
    }
    is_settled(d.granted | due.views, text)
}

// The query behind n others, given its text.
fn judge(n: u64, d: Drawn, due: Due, text: &[u8]) {
    let p = texts::policy(d.granted);
    let cells = cells::headed_by_set(due.views);
    let at = compare::replied(n, p, 1, text, 10, said(due.kind), cells);
    if !is_kept(d, due, text) {
        print_count(b"settled otherwise with what is added, case ", at);
        io::write_all(1, b"\n");
    }
}

fn try_query(n: u64, d: Drawn, due: Due)
    requires { d.lines ≤ 8 }
{
    let text = texts::query(d.labels);
    let end = texts::end_of(d.lines);
    judge(n, d, due, &text[..end]);
}

fn print_count(before: &[u8], n: u64) {
    io::write_all(1, before);
    io::print_decimal(1, n);
}

// Kind 0 is the empty list.
fn print(counts: [u64; 9]) {
    print_count(b"queries ", QUERIES);
    print_count(b", empty list ", counts[0]);
    print_count(b", none ", counts[NOTHING]);
    io::write_all(1, b"\nlists of 1 to 7 views");
    for count in &counts[1..NOTHING] {
        print_count(b" ", *count);
    }
    io::write_all(1, b"\n");
}

pub fn run() {
    let mut counts = [0; 9];
    let mut state = START;
    for n in 0..QUERIES {
        let d = drawing::draw(state, n % 4);
        let due = due_of(d);
        try_query(n, d, due);
        let kind = due.kind;
        counts[kind] = test_expect::counted(counts[kind]);
        state = d.state;
    }
    print(counts);
}
