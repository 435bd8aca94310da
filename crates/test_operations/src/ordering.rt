// The order of labels: each row of a file compared with each.

use crate::policies;
use test_expect::cells;
use test_expect::cells::List;

// The labels of a query, none where the call is turned back.
fn labels(policy: u64, query: &[u8]) -> List {
    let mut cells = cells::untouched();
    let count = desk::labels(policies::policy(policy), query, &mut cells).unwrap_or(0);
    List { count, cells }
}

// The labels of a row's query.
fn row_labels(row: &[u8]) -> List {
    let policy = test_expect::number_at(row, 0);
    let mut bytes = io::buffer();
    let query = test_expect::text_at(row, policy.behind, &mut bytes);
    let end = query.length;
    labels(policy.value, &bytes[..end])
}

// Whether a label is at or below each of a list, where the answer is yes, or at or below none of it, where it is no.
fn compares(x: u64, ys: &List, answer: bool) -> bool {
    ys.cells
        .iter()
        .take(ys.count)
        .all(|y| desk::compare_labels(x, *y) == answer)
}

// The same of each label of a list.
fn all_compare(xs: &List, ys: &List, answer: bool) -> bool {
    xs.cells
        .iter()
        .take(xs.count)
        .all(|x| compares(*x, ys, answer))
}

// One case more: a row's labels compared with another's. Both have some.
fn compared(n: u64, row: &[u8], xs: &List, other: &[u8], answer: bool) -> u64 {
    let at = test_expect::counted(n);
    let ys = row_labels(other);
    if xs.count == 0 || ys.count == 0 || !all_compare(xs, &ys, answer) {
        io::write_all(1, b"case ");
        io::print_decimal(1, at);
        io::write_all(1, b" compared ");
        io::write_all(1, row);
        io::write_all(1, b" with ");
        io::write_all(1, other);
        io::write_all(1, b" otherwise\n");
    }
    at
}

// The row's answer for another row.
fn run_answer(n: u64, row: &[u8], xs: &List, answer: u8, other: &[u8]) -> u64 {
    match answer {
        b'y' => compared(n, row, xs, other, true),
        b'n' => compared(n, row, xs, other, false),
        _ => {
            test_expect::print_malformed(row);
            n
        }
    }
}

// The row's answers, one for each row of the file.
fn run_answers(start: u64, file: &[u8], row: &[u8], xs: &List, answers: &[u8]) -> u64 {
    let mut n = start;
    let mut left = answers.iter();
    let mut too_few = false;
    for other in file.split(|b| *b == b'\n') {
        if test_expect::is_case(other) {
            match left.next() {
                Some(answer) => n = run_answer(n, row, xs, *answer, other),
                None => too_few = true,
            }
        }
    }
    if too_few || left.next().is_some() {
        test_expect::print_malformed(row);
    }
    n
}

// A row is a policy's number, a query, and its answers.
pub fn run_row(n: u64, file: &[u8], row: &[u8]) -> u64 {
    let policy = test_expect::number_at(row, 0);
    let mut query_bytes = io::buffer();
    let query = test_expect::text_at(row, policy.behind, &mut query_bytes);
    let mut answers_bytes = io::buffer();
    let answers = test_expect::text_at(row, query.behind, &mut answers_bytes);
    if !query.right || !answers.right || answers.behind != row.len() {
        test_expect::print_malformed(row);
        return n;
    }
    let answers_end = answers.length;
    let xs = row_labels(row);
    run_answers(n, file, row, &xs, &answers_bytes[..answers_end])
}
