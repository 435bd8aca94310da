// The limits on what the program reads: 65,536 bytes of queries, and a policy of 16,384.

ghost use Rattle.std.specs.Prelude.{◌+◌, ◌≤◌};

use crate::compare;
use test_expect::counted;

// The policy of the examples that are about files: one table, whose view 1 is all of it and stands in partition 1.
pub fn policy() -> [u8; 79] {
    *b"table columns\n1 2\nview table terms\n1 1 !1 !2\n2 1 !1 ?2\npartition views\n1 1\n2 2\n"
}

// An input of which 65,536 bytes are read. What stands before the place is a query of its own, too long to be one; from there on
// stand the end of its line and a query of 20 bytes.
fn queries_at(name: &[u8], place: usize, expected: &[u8])
    requires { place + 21 ≤ 65537 }
{
    let mut queries = [b'1'; 65537];
    writing::put_bytes(&mut queries, place, b"\ntable terms\n1 !1 !2\n");
    let policy = policy();
    let mut out = run::output_room();
    let n = run::run(&policy, &queries[..65536], &mut out);
    compare::compare(name, &out[..n], expected);
}

// A policy of so many bytes, none of them a line end.
fn policy_of(name: &[u8], length: usize, expected: &[u8])
    requires { length ≤ 16385 }
{
    let policy = [b'1'; 16385];
    let mut out = run::output_room();
    let n = run::run(&policy[..length], b"table terms\n1 !1 !2\n", &mut out);
    compare::compare(name, &out[..n], expected);
}

// The last query ends with the last byte that is read, or one byte past it, so that its line lacks its end.
fn of_queries(n: u64) -> u64 {
    queries_at(
        b"queries of 65536 bytes",
        65515,
        b"query answer open refusal line\n1 refused 2 7 0\n2 yes 1 0 0\n",
    );
    queries_at(
        b"queries of 65537 bytes",
        65516,
        b"query answer open refusal line\n1 refused 2 7 0\n2 refused 2 1 2\n",
    );
    counted(counted(n))
}

// Of 16,384 bytes the first line is looked at, and is no names line; of 16,385 none is.
fn of_policies(n: u64) -> u64 {
    policy_of(
        b"a policy of 16384 bytes",
        16384,
        b"query answer open refusal line\n0 refused 0 1 1\n",
    );
    policy_of(
        b"a policy of 16385 bytes",
        16385,
        b"query answer open refusal line\n0 refused 0 7 0\n",
    );
    counted(counted(n))
}

pub fn run_all() -> u64 {
    of_policies(of_queries(0))
}
