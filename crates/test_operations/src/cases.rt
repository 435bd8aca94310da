// The cases of a file.

use crate::{comparing, deciding, explaining, listing, ordering};

// What the cases of a file ask for.
#[derive(Clone, Copy)]
pub enum Kind {
    Labels,
    Explanations,
    Decisions,
    Comparisons,
    Order,
}

// A row of the order is compared with each row of its file.
fn run_case(n: u64, kind: Kind, file: &[u8], case: &[u8]) -> u64 {
    match kind {
        Kind::Labels => listing::run_case(n, case),
        Kind::Explanations => explaining::run_case(n, case),
        Kind::Decisions => deciding::run_case(n, case),
        Kind::Comparisons => comparing::run_case(n, case),
        Kind::Order => ordering::run_row(n, file, case),
    }
}

// The cases behind n cases, and how many there are then.
pub fn run_all(n: u64, kind: Kind, file: &[u8]) -> u64 {
    test_expect::run_all(n, file, |n, case| run_case(n, kind, file, case))
}
