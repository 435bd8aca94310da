// A reply and the buffer behind it, compared with what document 02 lays down. Each function takes the number of cases before it and gives
// its own.

ghost use Rattle.std.specs.Prelude.{◌≤◌, All};

use crate::rows;
use apart::Telling;
use model::{Policy, Refusal};
use test_expect::Said;

fn told(r: Result<Telling, Refusal>) -> Said {
    match r {
        Ok(Telling::Settled) => test_expect::settled(0),
        Ok(Telling::Apart { rows }) => test_expect::apart(rows as u64),
        Err(Refusal { number, line }) => test_expect::refused(number, line),
    }
}

// One case more, and its number; it is printed where it is not as it should be.
fn counted(n: u64, got: Said, right: bool) -> u64 {
    let at = test_expect::counted(n);
    if !right {
        test_expect::print_case(at, got);
        io::write_all(1, b"\n");
    }
    at
}

// The query is told apart by so many rows: the rows are judged, and the cells past them are as they were.
pub fn apart(n: u64, p: Policy, partition: u64, text: &[u8], count: usize) -> u64
    requires { (1 ≤ count) × (count ≤ 40) }
{
    let mut cells = rows::untouched();
    let got = told(apart::tell_apart(p, partition, text, &mut cells));
    let end = count * 9;
    let right = got == test_expect::apart(count as u64)
        && rows::stay(&cells, end)
        && rows::are_rows(p, &cells, count)
        && valuations::tells_apart(p, partition, text, &cells[..end]);
    counted(n, got, right)
}

// A partition, a query, and how many rows tell it apart.
pub type Case<'a> = (u64, &'a [u8], usize);

// The cases behind `start` cases, under one policy; how many there are then.
pub fn all_apart(start: u64, p: Policy, cases: &[Case]) -> u64
    requires { All (λ c. (1 ≤ c.2) × (c.2 ≤ 40)) cases.now }
{
    let mut n = start;
    for (partition, text, count) in cases {
        n = apart(n, p, *partition, text, *count);
    }
    n
}

// Nothing is written: the reply is this one, `room` cells being lent.
fn nothing_written(n: u64, p: Policy, partition: u64, text: &[u8], room: usize, said: Said) -> u64
    requires { room ≤ 370 }
{
    let mut cells = rows::untouched();
    let got = told(apart::tell_apart(p, partition, text, &mut cells[..room]));
    let right = got == said && rows::stay(&cells, 0);
    counted(n, got, right)
}

// The partition settles the query.
pub fn settled(n: u64, p: Policy, partition: u64, text: &[u8]) -> u64 {
    nothing_written(n, p, partition, text, 360, test_expect::settled(0))
}

// Each partition settles its query.
pub fn all_settled(start: u64, p: Policy, cases: &[(u64, &[u8])]) -> u64 {
    let mut n = start;
    for (partition, text) in cases {
        n = settled(n, p, *partition, text);
    }
    n
}

// A partition, a query, how many cells are lent, and the number and the line of what turns the call back.
pub type RefusedCase<'a> = (u64, &'a [u8], usize, u64, u64);

pub fn all_refused(start: u64, p: Policy, cases: &[RefusedCase]) -> u64
    requires { All (λ c. c.2 ≤ 370) cases.now }
{
    let mut n = start;
    for (partition, text, room, number, line) in cases {
        n = refused(n, p, *partition, text, *room, *number, *line);
    }
    n
}

// The call is turned back with this number and line.
fn refused(
    n: u64,
    p: Policy,
    partition: u64,
    text: &[u8],
    room: usize,
    number: u64,
    line: u64,
) -> u64
    requires { room ≤ 370 }
{
    nothing_written(
        n,
        p,
        partition,
        text,
        room,
        test_expect::refused(number, line),
    )
}
