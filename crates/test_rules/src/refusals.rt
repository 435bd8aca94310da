// Calls that are turned back for the room, the policy or the length of the rule.

use crate::compare::{ROOM, all_refused_at, refused_at};
use model::Policy;

// "10 comes last, met by a place past the buffer or too few bytes after it".
pub fn rooms(p: Policy, n: u64) -> u64 {
    let rule = b"Q1(x, y) :- T1(x, y, z), T2(x, 7)\n";
    all_refused_at(
        n,
        p,
        &[
            (rule, 2000, 2001, 10, 0),
            (rule, 2000, 2000, 10, 0),
            (rule, 2000, 1970, 10, 0),
            (rule, 2000, 18446744073709551615, 10, 0),
            (rule, 2000, 18446744073709551585, 10, 0),
            (rule, 30, 0, 10, 0),
            (rule, 35, 5, 10, 0),
            (rule, 0, 0, 10, 0),
            (b"Q(x, x) :- T2(x, y)\n", 0, 1, 12, 1),
            (b"Q(z) :- T2(x, y)\n", 0, 1, 11, 1),
            (b"Q(x) :- T2(x)\n", 10, 11, 5, 1),
            (b"", 0, 1, 1, 1),
        ],
    )
}

// "A policy no loading gives meets 8 first".
pub fn policies(p: Policy, altered: Policy, start: u64) -> u64 {
    let rule = b"Q1(x, y) :- T1(x, y, z), T2(x, 7)\n";
    let long = [b'x'; 4097];
    let n = all_refused_at(
        start,
        altered,
        &[
            (rule, ROOM, 0, 8, 0),
            (&long, ROOM, 0, 8, 0),
            (b"", ROOM, 0, 8, 0),
            (rule, 0, 1, 8, 0),
        ],
    );
    refused_at(n, p, &long, ROOM, 0, 7, 0)
}

// "then a rule over 4,096 bytes 7 at line 0".
pub fn lengths(p: Policy, start: u64) -> u64 {
    let rule = [b'x'; 4097];
    let mut n = refused_at(start, p, &rule[..4096], ROOM, 0, 1, 1);
    n = refused_at(n, p, &rule, 0, 1, 7, 0);
    n
}
