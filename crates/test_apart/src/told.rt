// Queries that a partition does not settle, each with its number of rows: one for each line of the reduced query, and one for each row
// that the views of the partition leave of the odd one, the first line that has no view.

use crate::compare::{all_apart, all_settled, apart};
use model::Policy;

// Document 01's policy: partition 1 grants views 2 and 3, partition 2 views 1 and 4. View 2 matches the row of query (4); view 4 does not
// match that of `2 !1 ?2`, as no constant is a value of a variable.
pub fn example(p: Policy, n: u64) -> u64 {
    all_apart(
        n,
        p,
        &[
            (1, b"table terms\n1 !1 !2 !3\n", 2),
            (2, b"table terms\n2 !1 ?2\n", 1),
            (2, b"table terms\n2 !1 #8\n", 1),
            (1, b"table terms\n1 !1 ?2 ?2\n", 2),
        ],
    )
}

// Two lines that share a hidden variable, the second of them odd too; a line that goes in reducing; and a join of two tables, where the
// second line is the odd one.
pub fn lines_and_joins(p: Policy, n: u64) -> u64 {
    all_apart(
        n,
        p,
        &[
            (1, b"table terms\n1 !1 #4 ?2\n1 !3 #5 ?2\n", 3),
            (1, b"table terms\n1 !1 !2 !3\n1 ?4 !2 !3\n", 2),
            (2, b"table terms\n1 !1 !2 !3\n2 !1 ?4\n", 2),
            (1, b"table terms\n2 !1 !2\n1 !1 !2 !3\n2 !4 ?5\n", 4),
        ],
    )
}

// A view whose two columns are one hidden variable, two that hide alike, and one that shows both. Partition 1 grants the first: its mark
// stands in both columns. Partition 2 grants the two, and their row is written once.
pub fn hiding(p: Policy, n: u64) -> u64 {
    all_apart(
        n,
        p,
        &[
            (1, b"table terms\n1 !1 !1\n", 2),
            (1, b"table terms\n1 !1 !2\n", 1),
            (2, b"table terms\n1 !1 !2\n", 2),
            (3, b"table terms\n1 !1 ?2\n1 ?2 !3\n", 4),
            (3, b"table terms\n1 ?1 ?2\n1 ?2 ?3\n", 4),
        ],
    )
}

// A table without views, and a partition that grants none.
pub fn without_views(wider: Policy, n: u64) -> u64 {
    all_apart(
        n,
        wider,
        &[
            (1, b"table terms\n3 !1\n", 1),
            (3, b"table terms\n1 !1 #4 ?2\n", 1),
            (3, b"table terms\n1 !1 #4 ?2\n2 !1 #7\n3 ?5\n", 3),
        ],
    )
}

// Constants of the views and of the query on both edges of the first three blocks of 72 numbers: no value of a variable is one of them.
pub fn constants(p: Policy, n: u64) -> u64 {
    all_apart(
        n,
        p,
        &[
            (1, b"table terms\n1 !1 !2\n", 1),
            (1, b"table terms\n1 !0 ?63\n1 ?63 #143\n1 #144 !1\n", 3),
            (1, b"table terms\n1 #4294967295 !1\n1 #0 ?2\n", 2),
        ],
    )
}

// Request 4: the constants 0 to 127 in views, and the first and the last of the 72 highest, which views 17 and 18 have before a column that
// they hide. These match a line with their constant, and no other view matches a line.
pub fn long_constants(p: Policy, n: u64) -> u64 {
    all_apart(
        n,
        p,
        &[
            (1, b"table terms\n1 !0 !1 !2 !3 !4 !5 !6 !7\n", 1),
            (
                1,
                b"table terms\n1 #18446744073709551615 !1 !2 !3 !4 !5 !6 !7\n",
                2,
            ),
            (
                1,
                b"table terms\n1 #18446744073709551544 !1 !2 !3 !4 !5 !6 !7\n",
                2,
            ),
            (1, b"table terms\n1 #0 #1 #2 #3 #4 #5 #6 ?7\n", 1),
            (
                1,
                b"table terms\n1 #18446744073709551615 ?1 !2 !3 !4 !5 !6 !7\n1 #18446744073709551544 ?1 !2 !3 !4 !5 !6 !7\n",
                3,
            ),
        ],
    )
}

// "at most 40 rows are given: eight lines and one row for each of at most 32 views"
pub fn forty(p: Policy, start: u64) -> u64 {
    let text =
        b"table terms\n1 !0 !1 !2 !3 !4 !5 !6 !7\n2 #0\n2 #1\n2 #2\n2 #3\n2 #4\n2 #5\n2 #6\n";
    apart(start, p, 1, text, 40)
}

// "A partition that settles the query gives the reply `settled` and no row."
pub fn settled_ones(p: Policy, n: u64) -> u64 {
    all_settled(
        n,
        p,
        &[
            (1, b"table terms\n1 !1 #4 ?2\n"),
            (2, b"table terms\n1 !1 #4 ?2\n2 !1 #7\n"),
            (1, b"table terms\n1 !1 !2 ?3\n1 ?4 !2 ?3\n"),
            (2, b"table terms\n1 !1 !2 !3\n"),
        ],
    )
}
