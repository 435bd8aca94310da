// Texts of one byte too many: 7 at line 0, whatever they hold.

ghost use Rattle.std.specs.Prelude.{◌≤◌};

use crate::compare;
use model::Policy;
use test_expect::{Said, cells, decided, refused};

fn no_labels(n: u64, p: Policy, text: &[u8], room: usize, said: Said) -> u64
    requires { room ≤ 10 }
{
    compare::labels(n, p, text, room, said, cells::untouched())
}

// 8 comes before 7, and 7 before 10.
pub fn labels(p: Policy, altered: Policy, start: u64) -> u64 {
    let text = [b'1'; 4097];
    let mut n = no_labels(start, p, &text, 10, refused(7, 0));
    n = no_labels(n, altered, &text, 0, refused(8, 0));
    n = no_labels(n, p, &text, 0, refused(7, 0));
    n
}

fn no_words(n: u64, p: Policy, partition: u64, text: &[u8], room: usize, said: Said) -> u64
    requires { room ≤ 10 }
{
    compare::words(n, p, partition, text, room, said, cells::untouched())
}

// 4 comes before 7, and 7 before 10.
pub fn explanations(p: Policy, start: u64) -> u64 {
    let text = [b'1'; 4097];
    let mut n = no_words(start, p, 1, &text, 10, refused(7, 0));
    n = no_words(n, p, 0, &text, 0, refused(4, 0));
    n = no_words(n, p, 1, &text, 0, refused(7, 0));
    n
}

// 8 comes before 9, and 9 before 7.
pub fn decisions(p: Policy, altered: Policy, start: u64) -> u64 {
    let text = [b'1'; 4097];
    let mut n = decided(start, altered, 0, &text, refused(8, 0), 0);
    n = decided(n, p, 0, &text, refused(9, 0), 0);
    n = decided(n, p, 3, &text, refused(7, 0), 3);
    n
}
