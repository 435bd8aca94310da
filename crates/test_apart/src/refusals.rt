// "Checks and numbers are as for explaining; 10 is met by a buffer of under 360 numbers, settled or not."

use crate::compare::{all_refused, apart, settled};
use model::Policy;

// 4 at line 0, before the text and the buffer are looked at.
pub fn partitions(p: Policy, n: u64) -> u64 {
    let text = b"table terms\n1 !1 !2 !3\n";
    all_refused(
        n,
        p,
        &[
            (0, text, 360, 4, 0),
            (3, text, 360, 4, 0),
            (18446744073709551615, text, 360, 4, 0),
            (0, b"table terms\n1 !1 ?x\n", 0, 4, 0),
            (3, b"", 0, 4, 0),
        ],
    )
}

// Query (4) needs 18 cells under partition 1 and is settled by partition 2.
pub fn rooms(p: Policy, start: u64) -> u64 {
    let text = b"table terms\n1 !1 !2 !3\n";
    let mut n = all_refused(
        start,
        p,
        &[
            (1, text, 359, 10, 0),
            (2, text, 359, 10, 0),
            (1, text, 18, 10, 0),
            (1, text, 0, 10, 0),
            (2, text, 0, 10, 0),
        ],
    );
    n = apart(n, p, 1, text, 2);
    settled(n, p, 2, text)
}

// The text's number and line, before 10.
pub fn texts(p: Policy, n: u64) -> u64 {
    all_refused(
        n,
        p,
        &[
            (1, b"", 359, 1, 1),
            (1, b"table terms\n", 359, 1, 2),
            (1, b"table terms\n1 !1 ?x\n", 359, 1, 2),
            (1, b"table terms\n1 !1 !2 ?64\n", 359, 2, 2),
            (1, b"table terms\n3 !1\n", 359, 4, 2),
            (1, b"table terms\n1 !1 !2\n", 359, 5, 2),
            (1, b"table terms\n1 !1 !2 ?3\n1 ?1 ?4 ?5\n", 360, 6, 3),
        ],
    )
}

// 8 comes before all of them.
pub fn orders(p: Policy, altered: Policy, start: u64) -> u64 {
    let good = b"table terms\n1 !1 !2 !3\n";
    let n = all_refused(
        start,
        altered,
        &[
            (1, good, 360, 8, 0),
            (0, good, 360, 8, 0),
            (1, b"table terms\n9", 360, 8, 0),
            (1, good, 0, 8, 0),
        ],
    );
    apart(n, p, 1, good, 2)
}
