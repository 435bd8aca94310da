// What the desk says, counted beside what the archives say.

use crate::family::{NONE, Query};
use crate::texts;
use desk::Reply;

// Of the settled queries those that two archives tell apart, and of the others those that none do or whose rows do not, count against the
// desk.
#[derive(Clone, Copy, Default)]
pub struct Tally {
    pub partitions: u64,
    pub settled: u64,
    pub apart: u64,
    pub unsettled: u64,
    pub never_apart: u64,
    pub not_by_rows: u64,
    pub refused: u64,
}

// One more where a test passes; no count comes near 2^64.
pub fn next_if(n: u64, passes: bool) -> u64 {
    n.wrapping_add(u64::from(passes))
}

pub fn count_partition(t: Tally) -> Tally {
    let mut next = t;
    next.partitions = next_if(t.partitions, true);
    next
}

// The desk's reply to a query, which two archives that agree tell apart or not, and which the desk's own rows do not or do.
pub fn count(t: Tally, reply: Reply, apart: bool, not_by_rows: bool) -> Tally {
    let mut next = t;
    match reply {
        Reply::Yes { .. } => {
            next.settled = next_if(t.settled, true);
            next.apart = next_if(t.apart, apart);
        }
        Reply::No { .. } => {
            next.unsettled = next_if(t.unsettled, true);
            next.never_apart = next_if(t.never_apart, !apart);
            next.not_by_rows = next_if(t.not_by_rows, not_by_rows);
        }
        Reply::Refused { .. } => {
            next.refused = next_if(t.refused, true);
        }
    }
    next
}

// The cases that count against the desk.
pub fn wrong(t: Tally) -> u64 {
    let silent = t.never_apart.wrapping_add(t.not_by_rows);
    t.apart.wrapping_add(silent).wrapping_add(t.refused)
}

fn print_reply(reply: Reply) {
    match reply {
        Reply::Yes { .. } => {
            io::write_all(1, b"settled, yet told apart");
        }
        Reply::No { .. } => {
            io::write_all(
                1,
                b"not settled, yet never told apart, or not by the desk's rows",
            );
        }
        Reply::Refused { .. } => {
            io::write_all(1, b"refused");
        }
    }
}

fn print_line(line: u64) {
    if line < NONE {
        let mut text = *b" (.. ..)";
        texts::put_line(&mut text, 2, line);
        io::write_all(1, &text);
    }
}

// A case that counts against the desk, with the partition's views and the query's lines.
pub fn print_case(reply: Reply, first: u64, second: u64, q: Query) {
    print_reply(reply);
    io::write_all(1, b": views");
    print_line(first);
    print_line(second);
    io::write_all(1, b", query");
    print_line(q.first);
    print_line(q.second);
    print_line(q.third);
    io::write_all(1, b"\n");
}

pub fn print_count(before: &[u8], n: u64) {
    io::write_all(1, before);
    io::print_decimal(1, n);
}

pub fn print(queries: u64, t: Tally) {
    print_count(b"queries ", queries);
    print_count(b", each under partitions ", t.partitions);
    print_count(b"\nsettled ", t.settled);
    print_count(b", of these told apart ", t.apart);
    print_count(b"\nnot settled ", t.unsettled);
    print_count(b", of these never told apart ", t.never_apart);
    print_count(b", not told apart by the desk's rows ", t.not_by_rows);
    print_count(b"\nrefused ", t.refused);
    io::write_all(1, b"\n");
}
