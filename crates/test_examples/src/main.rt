// The examples, each a folder of `data/`, run as the program runs them, the limits on what it reads, and names lines altered. A line
// is printed for each that differs from what document 01 lays down, and at the end how many there are.

#![tactic(auto)]

mod compare;
mod folders;
mod limits;
mod names;

fn main(rt: HostRuntime) {
    let mut names = io::large_buffer();
    let n = files::read_file(&rt, b"cases.txt", &mut names);
    let folders = folders::run_all(&rt, &names[..n]);
    let limits = limits::run_all();
    let altered = names::run_all();
    io::print_decimal(1, folders);
    io::write_all(1, b" examples\n");
    io::print_decimal(1, limits);
    io::write_all(1, b" limits\n");
    io::print_decimal(1, altered);
    io::write_all(1, b" names lines\n");
}
