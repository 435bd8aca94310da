// The smallest extra grant, in the cases of the file of `data/` and one more. A line is printed for each case in which the desk says
// another, or leaves other cells, and for each line of the file that is malformed, and at the end the number of cases. Then pseudo-random
// queries, each beside all sets of views: the same, and how many queries are due each kind of reply.

#![tactic(auto)]

mod cases;
mod cells;
mod compare;
mod drawing;
mod policies;
mod subsets;
mod sweep;
mod texts;

// A text of one byte too many: 7 at line 0.
fn too_long(n: u64) -> u64 {
    let text = [b'1'; 4097];
    let said = test_expect::refused(7, 0);
    compare::unwritten(n, test_expect::example(), 1, &text, said)
}

fn main(rt: HostRuntime) {
    let mut file = io::large_buffer();
    let bytes = files::read_file(&rt, b"grants.txt", &mut file);
    let n = too_long(cases::run_all(&file[..bytes]));
    io::print_decimal(1, n);
    io::write_all(1, b" cases\n");
    sweep::run();
}
