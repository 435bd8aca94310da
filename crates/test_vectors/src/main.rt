// Document 01's edges and refusals, each with the number and line that document 01 lays down: the cases of the two files of `data/`,
// names lines altered in one byte or two, and texts as long as the limits. A line is printed for each case in which the desk says
// another and for each line of a file that is malformed, and at the end the number of cases.

#![tactic(auto)]

mod cases;
mod expect;
mod long;
mod names;

use expect::Kind;

fn main(rt: HostRuntime) {
    let mut file = io::large_buffer();
    let bytes = files::read_file(&rt, b"queries.txt", &mut file);
    let mut n = cases::run_all(0, Kind::Query, &file[..bytes]);
    let bytes = files::read_file(&rt, b"policies.txt", &mut file);
    n = cases::run_all(n, Kind::Policy, &file[..bytes]);
    n = names::queries(n);
    n = names::policies(n);
    n = long::queries(n);
    n = long::policies(n);
    io::print_decimal(1, n);
    io::write_all(1, b" cases\n");
}
