// The cases of the file.

use crate::{compare, policies};
use model::Policy;
use test_expect::cells;

// The views are those to be added, or the word `none`.
fn answered(n: u64, p: Policy, partition: u64, views: &[u8], query: &[u8]) -> u64 {
    if matches!(views, b"none") {
        return compare::unwritten(n, p, partition, query, test_expect::nothing());
    }
    let l = cells::headed(views);
    let mut cells = l.cells;
    for cell in cells.iter_mut().take(l.count) {
        // there are 32 views
        if 32 < *cell {
            *cell = 0;
        }
    }
    compare::given(n, p, partition, query, l.count, cells)
}

// A case is a policy's number, a partition, the number and the line of what turns the call back, the views, and the query.
fn run_case(n: u64, case: &[u8]) -> u64 {
    let policy = test_expect::number_at(case, 0);
    let partition = test_expect::number_at(case, policy.behind);
    let number = test_expect::number_at(case, partition.behind);
    let line = test_expect::number_at(case, number.behind);
    let mut views_bytes = io::buffer();
    let views = test_expect::text_at(case, line.behind, &mut views_bytes);
    let mut query_bytes = io::buffer();
    let query = test_expect::text_at(case, views.behind, &mut query_bytes);
    if !views.right || !query.right || query.behind != case.len() {
        test_expect::print_malformed(case);
        return n;
    }
    let views_end = views.length;
    let query_end = query.length;
    let p = policies::policy(policy.value);
    if number.value != 0 {
        let said = test_expect::refused(number.value, line.value);
        return compare::unwritten(n, p, partition.value, &query_bytes[..query_end], said);
    }
    answered(
        n,
        p,
        partition.value,
        &views_bytes[..views_end],
        &query_bytes[..query_end],
    )
}

// How many cases there are.
pub fn run_all(file: &[u8]) -> u64 {
    test_expect::run_all(0, file, run_case)
}
