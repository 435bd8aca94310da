// The desk is asked by texts alone: a policy text is loaded, and a query text decided.

ghost use Rattle.std.specs.Prelude.{◌≡◌, ◌+◌, ◌<◌, ◌≤◌, length};

use crate::family::{NONE, Query, TERMS};
use apart::Telling;
use desk::{Reply, Session};
use model::Policy;

fn put_term(text: &mut [u8], at: usize, term: usize)
    requires { (at + 2 ≤ length text.old) × (term < 6) }
    ensures { length text.new ≡ length text.old }
{
    text[at..at + 2].copy_from_slice(&TERMS[term]);
}

// The two terms of a line; the byte between them stays, and all of them where there is no line.
pub fn put_line(text: &mut [u8], at: usize, line: u64)
    requires { at + 5 ≤ length text.old }
    ensures { length text.new ≡ length text.old }
{
    if line < NONE {
        put_term(text, at, (line / 6) as usize);
        put_term(text, at + 3, (line % 6) as usize);
    }
}

// How many lines a number stands for.
fn lines(line: u64) -> usize
    ensures { result ≤ 1 }
{
    usize::from(line < NONE)
}

// The policy of two views and one partition, which grants neither, the first or both. One that is not granted is `#0 #0`.
pub fn policy(first: u64, second: u64) -> Policy {
    let mut text =
        *b"table columns\n1 2\nview table terms\n1 1 #0 #0\n2 1 #0 #0\npartition views\n1 1 2\n";
    put_line(&mut text, 39, first);
    put_line(&mut text, 49, second);
    let end = 72 + 2 * (lines(first) + lines(second));
    text[end] = b'\n';
    load::load(&text[..end + 1]).unwrap_or(load::empty_policy())
}

// The policy of every view of the table, up to the numbers of its variables.
pub fn every_view() -> Policy {
    load::load(
        b"table columns\n1 2\nview table terms\n1 1 !1 !2\n2 1 !1 !1\n3 1 !1 ?3\n4 1 ?3 !1\n5 1 ?3 ?3\n6 1 ?3 ?4\n7 1 !1 #0
8 1 #0 !1\n9 1 !1 #1\n10 1 #1 !1\n11 1 ?3 #0\n12 1 #0 ?3\n13 1 ?3 #1\n14 1 #1 ?3\n15 1 #0 #0\n16 1 #0 #1\n17 1 #1 #0
18 1 #1 #1\npartition views\n1\n",
    )
    .unwrap_or(load::empty_policy())
}

pub fn line_count(q: Query) -> usize
    ensures { result ≤ 3 }
{
    lines(q.first) + lines(q.second) + lines(q.third)
}

// The text of a query. How many bytes it has.
fn put_query(text: &mut [u8], q: Query) -> usize
    requires { length text.old ≡ 36 }
    ensures upper_bound { result ≤ 36 }
    ensures text_len_unchanged { length text.new ≡ length text.old }
{
    put_line(text, 14, q.first);
    put_line(text, 22, q.second);
    put_line(text, 30, q.third);
    12 + 8 * line_count(q)
}

// What the desk says to a query in a session.
pub fn decide(p: Policy, s: Session, q: Query) -> Reply {
    let mut text = *b"table terms\n1 #0 #0\n1 #0 #0\n1 #0 #0\n";
    let end = put_query(&mut text, q);
    let d = desk::decide_checked(p, s, &text[..end]);
    d.reply
}

// How many labels a query has, and the labels, 0 behind the last; none where the desk turns it back.
#[derive(Clone, Copy, PartialEq, Eq)]
pub struct List {
    pub count: u64,
    pub first: u64,
    pub second: u64,
    pub third: u64,
}

pub fn labels(p: Policy, q: Query) -> List {
    let mut text = *b"table terms\n1 #0 #0\n1 #0 #0\n1 #0 #0\n";
    let end = put_query(&mut text, q);
    let mut cells = [0; 3];
    let count = desk::labels(p, &text[..end], &mut cells).unwrap_or(0) as u64;
    List {
        count,
        first: cells[0],
        second: cells[1],
        third: cells[2],
    }
}

// Whether the desk says that the partition settles the query, or gives rows that do not tell it apart.
pub fn not_apart(p: Policy, q: Query) -> bool {
    let mut text = *b"table terms\n1 #0 #0\n1 #0 #0\n1 #0 #0\n";
    let end = put_query(&mut text, q);
    let mut rows = [0; 360];
    match apart::tell_apart(p, 1, &text[..end], &mut rows) {
        Ok(Telling::Apart { rows: count }) => {
            if count < 1 {
                return true;
            }
            if 40 < count {
                return true;
            }
            let to = count * 9;
            !valuations::tells_apart(p, 1, &text[..end], &rows[..to])
        }
        _ => true,
    }
}
