// The cases of a file.

use crate::compare;
use model::Policy;

// A case is the number of what turns a rule back, the rule, and its text.
fn run_case(n: u64, p: Policy, case: &[u8]) -> u64 {
    let number = test_expect::number_at(case, 0);
    let mut rule_bytes = io::buffer();
    let rule = test_expect::text_at(case, number.behind, &mut rule_bytes);
    let mut text_bytes = io::buffer();
    let text = test_expect::text_at(case, rule.behind, &mut text_bytes);
    if !rule.right || !text.right || text.behind != case.len() {
        test_expect::print_malformed(case);
        return n;
    }
    let rule_end = rule.length;
    let text_end = text.length;
    compare::case(
        n,
        p,
        &rule_bytes[..rule_end],
        number.value,
        &text_bytes[..text_end],
    )
}

// The cases behind n cases, and how many there are then.
pub fn run_all(n: u64, p: Policy, file: &[u8]) -> u64 {
    test_expect::run_all(n, file, |n, case| run_case(n, p, case))
}
