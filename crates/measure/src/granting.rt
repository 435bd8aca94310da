// The smallest extra grant asked for again and again.

use model::{MOST_LINES, Policy, Refusal};

// A number for each reply: 1 and its count for a list, 100 for `none`, and for a refusal 1,000 and its number.
fn number_of(r: Result<Option<usize>, Refusal>) -> u64 {
    match r {
        Ok(Some(count)) => 1u64.wrapping_add(count as u64),
        Ok(None) => 100,
        Err(Refusal { number, .. }) => 1000u64.wrapping_add(number),
    }
}

fn sum_of(cells: &[u32; MOST_LINES]) -> u32 {
    cells.iter().fold(0, |sum, n| sum.wrapping_add(*n))
}

fn grant_again(p: Policy, n: u64, text: &[u8], times: u64) -> u64 {
    let mut sum = 0u64;
    for _ in 0..times {
        let mut cells = [0; MOST_LINES];
        let r = grants::smallest_grant(p, n, text, &mut cells);
        sum = sum.wrapping_add(number_of(r));
        sum = sum.wrapping_add(sum_of(&cells) as u64);
    }
    sum
}

// The grant for partition n and the query of a text so many times under the policy of a text: the sum of all replies and of the views
// given modulo 2^64. The policy is read once.
#[unsafe(no_mangle)]
pub extern "C" fn measure_grant(policy: &[u8], n: u64, query: &[u8], times: u64) -> u64 {
    match load::load(policy) {
        Ok(p) => grant_again(p, n, query, times),
        Err(_) => 0,
    }
}
