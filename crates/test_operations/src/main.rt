// Each operation of the desk, called with values worked out from document 01: in the cases of the files of `data/`, and in those here. A
// line is printed for each case in which the desk says another, or leaves another buffer or session, and for each line of a file that is
// malformed, and at the end the number of cases.

#![tactic(auto)]

mod answers;
mod cases;
mod compare;
mod comparing;
mod deciding;
mod explaining;
mod listing;
mod loading;
mod long;
mod opening;
mod ordering;
mod policies;
mod values;

use cases::Kind;
use model::Policy;
use std::rt::Files;

fn run_file(rt: &impl Files, n: u64, kind: Kind, path: &[u8]) -> u64 {
    let mut file = io::large_buffer();
    let bytes = files::read_file(rt, path, &mut file);
    cases::run_all(n, kind, &file[..bytes])
}

fn sessions(p: Policy, wider: Policy, start: u64) -> u64 {
    let mut n = opening::of_loaded(p, wider, policies::widest(), start);
    n = opening::of_counts(p, n);
    n = opening::of_tables_and_partitions(p, wider, n);
    n = opening::of_views(p, n);
    n = opening::of_terms(p, n);
    n
}

fn main(rt: HostRuntime) {
    let p = test_expect::example();
    let altered = test_expect::altered();
    let mut n = loading::taken(0);
    n = loading::refused(n);
    n = run_file(&rt, n, Kind::Labels, b"labels.txt");
    n = long::labels(p, altered, n);
    n = run_file(&rt, n, Kind::Explanations, b"explanations.txt");
    n = long::explanations(p, n);
    n = sessions(p, test_expect::wider(), n);
    n = run_file(&rt, n, Kind::Decisions, b"decisions.txt");
    n = long::decisions(p, altered, n);
    n = run_file(&rt, n, Kind::Comparisons, b"comparisons.txt");
    n = run_file(&rt, n, Kind::Order, b"order.txt");
    io::print_decimal(1, n);
    io::write_all(1, b" cases\n");
}
