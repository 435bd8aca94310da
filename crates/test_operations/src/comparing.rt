// Comparing two words.

use crate::answers;
use crate::answers::Word;

fn compared(n: u64, x: u64, y: u64, expected: bool) -> u64 {
    let at = test_expect::counted(n);
    if desk::compare_labels(x, y) != expected {
        io::write_all(1, b"case ");
        io::print_decimal(1, at);
        io::write_all(1, b" compared ");
        io::print_decimal(1, x);
        io::write_all(1, b" ");
        io::print_decimal(1, y);
        io::write_all(1, b" otherwise\n");
    }
    at
}

fn malformed(n: u64, case: &[u8]) -> u64 {
    test_expect::print_malformed(case);
    n
}

// A case is two words, and whether the first is at or below the second.
pub fn run_case(n: u64, case: &[u8]) -> u64 {
    let x = test_expect::number_at(case, 0);
    let y = test_expect::number_at(case, x.behind);
    let answer = answers::answer_at(case, y.behind);
    if answer.behind != case.len() {
        return malformed(n, case);
    }
    let word = answer.word;
    match word {
        Word::Yes => compared(n, x.value, y.value, true),
        Word::No => compared(n, x.value, y.value, false),
        _ => malformed(n, case),
    }
}
