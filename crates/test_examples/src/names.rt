// Two queries whose names lines are altered in one byte: each byte, in its lowest bit and in its highest.

ghost use Rattle.std.specs.Prelude.{◌+◌, ◌<◌, ◌≤◌};

use crate::{compare, limits};
use test_expect::counted;

// How many bytes the names line has, and the place of the second.
const NAMES: usize = 11;

const SECOND: usize = 20;

fn altered(place: usize, bits: u8, expected: &[u8])
    requires { place < 40 }
{
    let mut queries = *b"table terms\n1 !1 !2\ntable terms\n1 !1 !2\n";
    queries[place] ^= bits;
    let policy = limits::policy();
    let mut out = run::output_room();
    let n = run::run(&policy, &queries, &mut out);
    compare::compare(&queries, &out[..n], expected);
}

// The names line at a place, and what the program then says.
fn names_line(start: u64, at: usize, expected: &[u8]) -> u64
    requires { at + 11 ≤ 40 }
{
    let mut n = start;
    for place in at..at + NAMES {
        altered(place, 1, expected);
        altered(place, 128, expected);
        n = counted(counted(n));
    }
    n
}

// The first query is turned back for its names line; or the second starts nowhere, and its names line is one of the first query's lines.
pub fn run_all() -> u64 {
    let n = names_line(
        0,
        0,
        b"query answer open refusal line\n1 refused 2 1 1\n2 yes 1 0 0\n",
    );
    names_line(
        n,
        SECOND,
        b"query answer open refusal line\n1 refused 2 1 3\n",
    )
}
