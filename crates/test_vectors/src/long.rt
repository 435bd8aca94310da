// Texts as long as the limits on their lengths.

use crate::expect::{Kind, case};

// A text of 4,096 bytes is looked at; one of 4,097 is 7 at line 0, whatever it holds.
pub fn queries(start: u64) -> u64 {
    let text = [b'9'; 4097];
    let mut n = case(start, b"4097 bytes", Kind::Query, &text, 7, 0);
    n = case(n, b"4096 bytes", Kind::Query, &text[..4096], 1, 1);
    n = case(n, b"4095 bytes", Kind::Query, &text[..4095], 1, 1);
    n
}

// A text of 16,384 bytes is looked at; one of 16,385 is 7 at line 0, whatever it holds.
pub fn policies(start: u64) -> u64 {
    let text = [b'9'; 16385];
    let mut n = case(start, b"16385 bytes", Kind::Policy, &text, 7, 0);
    n = case(n, b"16384 bytes", Kind::Policy, &text[..16384], 1, 1);
    n
}
