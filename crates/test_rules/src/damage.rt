// The example of document 02 with one byte of it changed.

ghost use Rattle.std.specs.Prelude.{◌≡◌, ◌<◌, length};

use crate::compare::{refused, written};
use model::Policy;

// How many bytes the example has.
const LONG: usize = 34;

fn rule() -> [u8; LONG]
    ensures { 34 ≡ length result }
{
    *b"Q1(x, y) :- T1(x, y, z), T2(x, 7)\n"
}

// The head's name, the numbers of the tables, and the constant.
const NAME_DIGIT: usize = 1;

const FIRST_TABLE: usize = 13;

const SECOND_TABLE: usize = 26;

const CONSTANT: usize = 31;

// Without a byte, it is no rule, but for the digit of the head's name.
fn deleted(p: Policy, i: usize, n: u64) -> u64
    requires { i < 34 }
{
    let whole = rule();
    let mut bytes = [0; LONG - 1];
    bytes[..i].copy_from_slice(&whole[..i]);
    bytes[i..].copy_from_slice(&whole[i + 1..]);
    if i == NAME_DIGIT {
        return written(n, p, &bytes, b"table terms\n1 !0 !1 ?2\n2 !0 #7\n");
    }
    refused(n, p, &bytes, 1)
}

// A byte twice: the digits of `Q11`, `T11`, `T22` and `77`.
fn doubled(p: Policy, i: usize, n: u64) -> u64
    requires { i < 34 }
{
    let whole = rule();
    let mut bytes = [0; LONG + 1];
    bytes[..i + 1].copy_from_slice(&whole[..i + 1]);
    bytes[i + 1..].copy_from_slice(&whole[i..]);
    if i == NAME_DIGIT {
        return written(n, p, &bytes, b"table terms\n1 !0 !1 ?2\n2 !0 #7\n");
    }
    if i == FIRST_TABLE {
        return refused(n, p, &bytes, 4);
    }
    if i == SECOND_TABLE {
        return refused(n, p, &bytes, 2);
    }
    if i == CONSTANT {
        return written(n, p, &bytes, b"table terms\n1 !0 !1 ?2\n2 !0 #77\n");
    }
    refused(n, p, &bytes, 1)
}

// Another byte: only a space for a space leaves a rule.
fn replaced(p: Policy, i: usize, by: u8, n: u64) -> u64
    requires { i < 34 }
{
    let mut bytes = rule();
    let same = bytes[i] == by;
    bytes[i] = by;
    if same {
        return written(n, p, &bytes, b"table terms\n1 !0 !1 ?2\n2 !0 #7\n");
    }
    refused(n, p, &bytes, 1)
}

pub fn of_example(p: Policy, start: u64) -> u64 {
    let mut n = start;
    for i in 0..LONG {
        n = deleted(p, i, n);
        n = doubled(p, i, n);
        for by in [b' ', 0, 128] {
            n = replaced(p, i, by, n);
        }
    }
    n
}
