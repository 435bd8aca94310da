// The cases of a file.

use crate::expect;
use crate::expect::Kind;

// A case is the number and the line of what turns a text back, and the text.
fn run_case(n: u64, kind: Kind, case: &[u8]) -> u64 {
    let number = test_expect::number_at(case, 0);
    let line = test_expect::number_at(case, number.behind);
    let mut out = io::buffer();
    let text = test_expect::text_at(case, line.behind, &mut out);
    if !text.right || text.behind != case.len() {
        test_expect::print_malformed(case);
        return n;
    }
    let length = text.length;
    expect::case(n, case, kind, &out[..length], number.value, line.value)
}

// The cases behind n cases, and how many there are then.
pub fn run_all(n: u64, kind: Kind, file: &[u8]) -> u64 {
    test_expect::run_all(n, file, |n, case| run_case(n, kind, case))
}
