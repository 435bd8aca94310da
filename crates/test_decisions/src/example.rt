// What each query says follows from its labels. Partition 1 grants views 2 and 3, partition 2 views 1 and 4; both open is 3.

use model::Policy;
use test_expect::{all_decided, no, refused, yes};

// The six queries of document 01's example, in one session; a refusal's count is 0.
pub fn queries(p: Policy, n: u64) -> u64 {
    all_decided(
        n,
        p,
        &[
            (3, b"table terms\n1 !1 #4 ?2\n", yes(2), 3),
            (3, b"table terms\n1 !1 #4 ?2\n2 !1 #7\n", yes(2), 3),
            (3, b"table terms\n2 !1 ?2\n", yes(1), 1),
            (1, b"table terms\n1 !1 !2 !3\n", no(1), 1),
            (1, b"table terms\n1 !1 !2\n", refused(5, 2), 1),
            (1, b"table terms\n1 !1 !2 ?3\n1 ?4 !2 ?3\n", yes(1), 1),
        ],
    )
}

pub fn labels_of_table_1(p: Policy, n: u64) -> u64 {
    all_decided(
        n,
        p,
        &[
            // view 1 alone
            (3, b"table terms\n1 !1 !2 !3\n", yes(1), 2),
            (3, b"table terms\n1 !1 ?2 ?2\n", yes(1), 2),
            // a hidden column of view 2 must not match a constant
            (3, b"table terms\n1 !1 !2 #5\n", yes(1), 2),
            (1, b"table terms\n1 !1 !2 #5\n", no(1), 1),
            // views 1 and 2
            (3, b"table terms\n1 !1 !1 ?2\n", yes(2), 3),
            (2, b"table terms\n1 !1 !1 ?2\n", yes(1), 2),
        ],
    )
}

pub fn labels_of_table_2(p: Policy, n: u64) -> u64 {
    all_decided(
        n,
        p,
        &[
            // views 3 and 4
            (3, b"table terms\n2 !1 #7\n", yes(2), 3),
            // view 3 alone
            (3, b"table terms\n2 !1 #8\n", yes(1), 1),
            (2, b"table terms\n2 !1 #8\n", no(1), 2),
            (3, b"table terms\n2 ?1 ?2\n", yes(1), 1),
        ],
    )
}

pub fn joins(p: Policy, n: u64) -> u64 {
    all_decided(
        n,
        p,
        &[
            // the shared variable is shown: each line has view 1 alone
            (3, b"table terms\n1 !1 #4 ?2\n1 !3 #5 ?2\n", yes(1), 2),
            (1, b"table terms\n1 !1 #4 ?2\n1 !3 #5 ?2\n", no(1), 1),
            // views 1 and 2, and view 3
            (3, b"table terms\n1 !1 ?2 ?3\n2 !4 ?2\n", yes(1), 1),
            // view 1, and view 3: no partition has both
            (3, b"table terms\n1 !1 !2 !3\n2 !1 !2\n", no(2), 3),
            // eight lines that reduce to one, with views 3 and 4
            (
                3,
                b"table terms\n2 !1 #7\n2 !1 #7\n2 !1 #7\n2 !1 #7\n2 !1 #7\n2 !1 #7\n2 !1 #7\n2 !1 #7\n",
                yes(2),
                3,
            ),
        ],
    )
}
