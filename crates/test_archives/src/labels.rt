// Labels beside answers. Queries with the same answers on every archive have one list of labels; it ascends, and has as many words as
// the shortest of these queries has lines.

ghost use Rattle.std.specs.Prelude.{◌<◌};

use crate::answers::Table;
use crate::family::QUERIES;
use crate::texts::List;
use crate::{family, tally, texts};
use model::Policy;

// Of the pairs of queries with the same answers those with other labels, and of the queries those whose labels do not ascend, or are
// more or fewer than the lines needed, count against the desk.
#[derive(Clone, Copy, Default)]
pub struct Likeness {
    pub pairs: u64,
    pub other_labels: u64,
    pub not_ascending: u64,
    pub other_count: u64,
}

// Whether each label is at most the next. No label is 0, which stands behind the last.
fn ascends(l: List) -> bool {
    if l.second < l.first && l.second != 0 {
        return false;
    }
    l.second <= l.third || l.third == 0
}

// How many lines the shortest query has whose answers on every archive are these.
fn lines_needed(codes: &[u64; QUERIES], table: &Table, answers: &[u16; 512]) -> u64 {
    let mut least = 3;
    for (code, others) in codes.iter().zip(table) {
        let lines = texts::line_count(family::query_of(*code)) as u64;
        if lines < least && others == answers {
            least = lines;
        }
    }
    least
}

// A query with these labels beside another with the same answers.
fn try_pair(t: Likeness, labels: List, p: Policy, code: u64) -> Likeness {
    let other = texts::labels(p, family::query_of(code));
    let mut next = t;
    next.pairs = tally::next_if(t.pairs, true);
    next.other_labels = tally::next_if(t.other_labels, labels != other);
    next
}

// Query i beside each query before it that has the same answers.
fn try_earlier(
    t: Likeness,
    labels: List,
    p: Policy,
    codes: &[u64; QUERIES],
    table: &Table,
    i: usize,
) -> Likeness
    requires { i < 1518 }
{
    let mut next = t;
    for k in 0..i {
        if table[k] == table[i] {
            next = try_pair(next, labels, p, codes[k]);
        }
    }
    next
}

// Every query under one policy.
pub fn try_all(p: Policy, codes: &[u64; QUERIES], table: &Table) -> Likeness {
    let mut t = Likeness::default();
    for i in 0..QUERIES {
        let l = texts::labels(p, family::query_of(codes[i]));
        t.not_ascending = tally::next_if(t.not_ascending, !ascends(l));
        let needed = lines_needed(codes, table, &table[i]);
        t.other_count = tally::next_if(t.other_count, l.count != needed);
        t = try_earlier(t, l, p, codes, table, i);
    }
    t
}

pub fn print(t: Likeness) {
    tally::print_count(b"pairs with the same answers ", t.pairs);
    tally::print_count(b", of these with other labels ", t.other_labels);
    tally::print_count(b"\nlabels that do not ascend ", t.not_ascending);
    tally::print_count(b", more or fewer than the lines needed ", t.other_count);
    io::write_all(1, b"\n");
}
