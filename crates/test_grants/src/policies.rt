// The policies of the cases, by number.

use crate::texts;
use model::Policy;

// A table of four columns. Views 1 to 3 each hide one of the first three, view 4 none; the partition grants none.
fn four_views() -> Policy {
    load::load(
        b"table columns\n1 4\nview table terms\n1 1 ?0 !1 !2 !3\n2 1 !0 ?1 !2 !3\n3 1 !0 !1 ?2 !3\n4 1 !0 !1 !2 !3\npartition views\n1\n",
    ).unwrap_or(load::empty_policy())
}

// The same without view 4.
fn three_views() -> Policy {
    load::load(
        b"table columns\n1 4\nview table terms\n1 1 ?0 !1 !2 !3\n2 1 !0 ?1 !2 !3\n3 1 !0 !1 ?2 !3\npartition views\n1\n",
    ).unwrap_or(load::empty_policy())
}

// A table of one column and 32 views of it, its rows with 1, with 2 and so on. Partition 1 grants none, partition 2 the last.
fn constants() -> Policy {
    load::load(
        b"table columns\n1 1\nview table terms\n1 1 #1\n2 1 #2\n3 1 #3\n4 1 #4\n5 1 #5\n6 1 #6\n7 1 #7\n8 1 #8\n9 1 #9
10 1 #10\n11 1 #11\n12 1 #12\n13 1 #13\n14 1 #14\n15 1 #15\n16 1 #16\n17 1 #17\n18 1 #18\n19 1 #19\n20 1 #20
21 1 #21\n22 1 #22\n23 1 #23\n24 1 #24\n25 1 #25\n26 1 #26\n27 1 #27\n28 1 #28\n29 1 #29\n30 1 #30\n31 1 #31
32 1 #32\npartition views\n1\n2 32\n",
    )
    .unwrap_or(load::empty_policy())
}

pub fn policy(number: u64) -> Policy {
    match number {
        1 => test_expect::example(),
        2 => test_expect::wider(),
        3 => four_views(),
        4 => three_views(),
        5 => texts::policy(0),
        6 => texts::policy(64),
        7 => texts::policy(127),
        8 => constants(),
        9 => test_expect::altered(),
        _ => load::empty_policy(),
    }
}
