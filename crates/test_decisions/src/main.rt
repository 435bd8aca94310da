// Document 01's example and its remaining examples, decided. A line is printed for each case in which the desk says another,
// and at the end the number of cases.

#![tactic(auto)]

mod example;
mod refusals;

use desk::Session;
use model::Policy;

// The partitions that opening opens: both.
fn opened(p: Policy, n: u64) -> u64 {
    let s = desk::open_session(p).unwrap_or(Session { mask: 0 });
    if s.mask != 3 {
        io::write_all(1, b"opening left ");
        io::print_decimal(1, s.mask);
        io::write_all(1, b"\n");
    }
    test_expect::counted(n)
}

fn main() {
    let p = test_expect::example();
    let mut n = opened(p, 0);
    n = example::queries(p, n);
    n = example::labels_of_table_1(p, n);
    n = example::labels_of_table_2(p, n);
    n = example::joins(p, n);
    n = refusals::of_texts(p, n);
    n = refusals::of_numbers(p, n);
    n = refusals::of_sessions(p, n);
    n = refusals::of_policies(n);
    io::print_decimal(1, n);
    io::write_all(1, b" cases\n");
}
