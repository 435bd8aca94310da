// A policy checked again and again: what refusal 8 costs an operation.

use model::Policy;

fn check_again(p: Policy, times: u64) -> u64 {
    let mut sum = 0u64;
    for _ in 0..times {
        if validity::valid(p) {
            sum = sum.wrapping_add(1);
        }
    }
    sum
}

// How often the policy of a text was found valid in so many checks; a text that is turned back has the empty policy.
#[unsafe(no_mangle)]
pub extern "C" fn measure_check(policy: &[u8], times: u64) -> u64 {
    let p = load::load(policy).unwrap_or(load::empty_policy());
    check_again(p, times)
}
