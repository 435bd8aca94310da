// Rules turned into query texts, in cases worked out from document 02: those of the file of `data/`, and those here. A line is printed for
// each case in which the reply is another, or other bytes stand in the buffer, and for each line of the file that is malformed, and at the
// end the number of cases.

#![tactic(auto)]

mod cases;
mod compare;
mod damage;
mod refusals;
mod texts;

fn main(rt: HostRuntime) {
    let p = test_expect::example();
    let widest = texts::widest();
    let mut file = io::large_buffer();
    let bytes = files::read_file(&rt, b"rules.txt", &mut file);
    let mut n = cases::run_all(0, p, &file[..bytes]);
    n = texts::example(p, n);
    n = texts::most_variables(widest, n);
    n = texts::longest_constants(widest, n);
    n = texts::decided(p, n);
    n = refusals::rooms(p, n);
    n = refusals::policies(p, test_expect::altered(), n);
    n = refusals::lengths(p, n);
    n = damage::of_example(p, n);
    io::print_decimal(1, n);
    io::write_all(1, b" cases\n");
}
