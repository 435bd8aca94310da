// What is turned back, with the session as it was; and the last number that is not.

use model::Policy;
use test_expect::{all_decided, refused, yes};

pub fn of_texts(p: Policy, n: u64) -> u64 {
    let long = [b'1'; 4097];
    all_decided(
        n,
        p,
        &[
            (3, b"", refused(1, 1), 3),
            (3, b"table terms\n", refused(1, 2), 3),
            (3, b"table terms\n2 !1 #7", refused(1, 2), 3),
            (3, b"table terms\n3 !1\n", refused(4, 2), 3),
            (3, b"table terms\n2 !1 #7\n2 ?1 #7\n", refused(6, 3), 3),
            (
                3,
                b"table terms\n2 !1 #7\n2 !1 #7\n2 !1 #7\n2 !1 #7\n2 !1 #7\n2 !1 #7\n2 !1 #7\n2 !1 #7\n2 !1 #7\n",
                refused(7, 10),
                3,
            ),
            (3, &long, refused(7, 0), 3),
        ],
    )
}

pub fn of_numbers(p: Policy, n: u64) -> u64 {
    all_decided(
        n,
        p,
        &[
            (3, b"table terms\n2 ?63 !1\n", yes(1), 1),
            (3, b"table terms\n2 ?64 !1\n", refused(2, 2), 3),
            (3, b"table terms\n2 !1 #4294967295\n", yes(1), 1),
            (3, b"table terms\n2 !1 #4294967296\n", yes(1), 1),
            (3, b"table terms\n2 !1 #42949672950\n", yes(1), 1),
            // 7 past 2 ^ 32 is not taken for 7, which partition 2 would settle
            (3, b"table terms\n2 !1 #4294967303\n", yes(1), 1),
            (3, b"table terms\n2 !1 #18446744073709551615\n", yes(1), 1),
            (
                3,
                b"table terms\n2 !1 #18446744073709551616\n",
                refused(2, 2),
                3,
            ),
            (
                3,
                b"table terms\n2 !1 #100000000000000000000\n",
                refused(1, 2),
                3,
            ),
        ],
    )
}

// 9 comes before the text.
pub fn of_sessions(p: Policy, n: u64) -> u64 {
    all_decided(
        n,
        p,
        &[
            (0, b"table terms\n2 !1 #7\n", refused(9, 0), 0),
            (4, b"table terms\n2 !1 #7\n", refused(9, 0), 4),
            (7, b"table terms\n2 !1 #7\n", refused(9, 0), 7),
            (0, b"", refused(9, 0), 0),
        ],
    )
}

// 8 comes before 9; the empty policy is one that no text loads to.
pub fn of_policies(n: u64) -> u64 {
    let p = load::empty_policy();
    all_decided(
        n,
        p,
        &[
            (1, b"table terms\n2 !1 #7\n", refused(8, 0), 1),
            (0, b"", refused(8, 0), 0),
        ],
    )
}
