// The views that a partition lacks.

use model::{MOST_LINES, Policy, Refusal};

// The first numbers, each behind a space.
fn print_numbers(numbers: [u32; MOST_LINES], count: usize) {
    for number in numbers.iter().take(count) {
        io::write_all(1, b" ");
        io::print_decimal(1, *number as u64);
    }
}

// The fewest views whose addition makes a partition settle a query that it does not.
pub fn print_lacking(p: Policy, n: u64, text: &[u8]) {
    let mut numbers = [0; MOST_LINES];
    io::write_all(1, b"  views to add:");
    match grants::smallest_grant(p, n, text, &mut numbers) {
        Ok(Some(count)) => {
            print_numbers(numbers, count);
            io::write_all(1, b"\n");
        }
        Ok(None) => {
            io::write_all(1, b" none will do\n");
        }
        Err(Refusal { number, line }) => {
            io::write_all(1, b" ");
            crate::print_refusal(number, line)
        }
    }
}
