// Every small query under every small partition: what the desk says, beside what all small archives say. A partition
// determines a query when no two archives that agree on its views tell the query apart. Values, rows and archives are so few
// that all are gone through, by document 01's definitions; the desk's labels, and what they are made with, are not used. Then the desk's
// labels are set beside the same answers, and their order beside what single views determine.

#![tactic(auto)]

mod agreement;
mod answers;
mod family;
mod labels;
mod order;
mod tally;
mod texts;
mod two_tables;

use answers::Table;
use desk::{Reply, Session};
use family::{NONE, QUERIES, Query};
use model::Policy;
use tally::Tally;

// The most cases that are printed.
const MOST_PRINTED: u64 = 5;

fn fill_answers(codes: &[u64; QUERIES], table: &mut Table) {
    for (code, answers) in codes.iter().zip(table.iter_mut()) {
        answers::fill(family::query_of(*code), answers);
    }
}

// A partition's two views, either of which may be none, its policy, and a session that nothing was asked in.
#[derive(Clone, Copy)]
struct Grant {
    first: u64,
    second: u64,
    policy: Policy,
    session: Session,
}

fn granted(first: u64, second: u64) -> Grant {
    let policy = texts::policy(first, second);
    let session = desk::open_session(policy).unwrap_or(Session { mask: 0 });
    Grant {
        first,
        second,
        policy,
        session,
    }
}

// Whether a query that is not settled gets rows that do not tell it apart.
fn not_by_rows(p: Policy, q: Query, reply: Reply) -> bool {
    match reply {
        Reply::No { .. } => texts::not_apart(p, q),
        _ => false,
    }
}

// One query under one partition.
fn try_query(t: Tally, g: Grant, code: u64, apart: bool) -> Tally {
    let q = family::query_of(code);
    let p = g.policy;
    let s = g.session;
    let reply = texts::decide(p, s, q);
    let next = tally::count(t, reply, apart, not_by_rows(p, q, reply));
    if tally::wrong(t) < tally::wrong(next) && tally::wrong(t) < MOST_PRINTED {
        tally::print_case(reply, g.first, g.second, q);
    }
    next
}

// Every query under one partition.
fn try_partition(
    t: Tally,
    first: u64,
    second: u64,
    codes: &[u64; QUERIES],
    table: &Table,
) -> Tally {
    let g = granted(first, second);
    let mut alike = [0; 512];
    agreement::fill(first, second, &mut alike);
    let mut next = tally::count_partition(t);
    for (code, answers) in codes.iter().zip(table) {
        let apart = agreement::told_apart(&alike, answers);
        next = try_query(next, g, *code, apart);
    }
    next
}

// Every partition: no view, one view or two, which ascend and may be equal.
fn try_all(codes: &[u64; QUERIES], table: &Table) -> Tally {
    let mut t = Tally::default();
    for first in 0..=NONE {
        for second in first..=NONE {
            t = try_partition(t, first, second, codes, table);
        }
    }
    t
}

fn main() {
    let mut codes = [0; QUERIES];
    let queries = family::list_queries(&mut codes);
    let mut table = [[0; 512]; QUERIES];
    fill_answers(&codes, &mut table);
    let t = try_all(&codes, &table);
    tally::print(queries as u64, t);
    let p = texts::every_view();
    let l = labels::try_all(p, &codes, &table);
    labels::print(l);
    order::print(b"pairs of lines ", order::try_all());
    order::print(b"pairs of lines of two tables ", two_tables::try_all());
}
