// The pages of the modes, in the cases of the file of `data/`. A line is printed for each case whose page is another, and for each line of the
// file that is malformed, and at the end the number of cases.

#![tactic(auto)]

mod pages;

ghost use Rattle.std.specs.Prelude.{◌≤◌, length};

// The texts of a case, from a place on, and the page for them; how many cases there are with it.
fn run_texts(n: u64, line: &[u8], at: usize, mode: &[u8], first: &[u8], second: &[u8]) -> u64
    requires { at ≤ length line.now }
{
    let mut policy = io::buffer();
    let p = test_expect::text_at(line, at, &mut policy);
    let mut query = io::buffer();
    let q = test_expect::text_at(line, p.behind, &mut query);
    let mut expected = io::buffer();
    let e = test_expect::text_at(line, q.behind, &mut expected);
    if !e.right {
        test_expect::print_malformed(line);
        return n;
    }
    let policy_bytes = &policy[..p.length];
    let query_bytes = &query[..q.length];
    let page = &expected[..e.length];
    if !pages::is_page(mode, first, second, policy_bytes, query_bytes, page) {
        io::write_all(1, b"another page: ");
        io::write_all(1, line);
        io::write_all(1, b"\n");
    }
    n.wrapping_add(1)
}

// A case behind n cases, and how many there are with it.
fn run_case(n: u64, line: &[u8]) -> u64 {
    let mut mode = io::buffer();
    let m = test_expect::text_at(line, 0, &mut mode);
    let mut first = io::buffer();
    let a = test_expect::text_at(line, m.behind, &mut first);
    let mut second = io::buffer();
    let b = test_expect::text_at(line, a.behind, &mut second);
    run_texts(
        n,
        line,
        b.behind,
        &mode[..m.length],
        &first[..a.length],
        &second[..b.length],
    )
}

fn main(rt: HostRuntime) {
    let mut file = io::large_buffer();
    let bytes = files::read_file(&rt, b"cases.txt", &mut file);
    io::print_decimal(1, test_expect::run_all(0, &file[..bytes], run_case));
    io::write_all(1, b" cases\n");
}
