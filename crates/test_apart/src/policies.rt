// The policies that archives are given under.

use model::Policy;

// A table of two columns. Partition 1 grants a view whose columns are one hidden variable, partition 2 two views that hide the second
// column, partition 3 these and one that hides both.
pub fn hiding() -> Policy {
    load::load(
        b"table columns\n1 2\nview table terms\n1 1 ?1 ?1\n2 1 !1 ?2\n3 1 !5 ?6\n4 1 ?1 ?2\npartition views\n1 1\n2 2 3\n3 2 3 4\n",
    ).unwrap_or(load::empty_policy())
}

// Views with the constants 0, 71, 72 and 215: the first and the last number of a block of 72, the first of the next, and the last of the
// third.
pub fn constants() -> Policy {
    load::load(
        b"table columns\n1 2\nview table terms\n1 1 #0 !1\n2 1 #71 !1\n3 1 #72 !1\n4 1 #215 !1\n5 1 !1 #7\npartition views\n1 1 2 3 4 5\n",
    ).unwrap_or(load::empty_policy())
}

// The constants 0 to 127, eight in each of 16 views; and 2 ^ 64 - 72 and 2 ^ 64 - 1, each in a view that hides the second column.
pub fn long_constants() -> Policy {
    load::load(
        b"table columns\n1 8\nview table terms
1 1 #0 #1 #2 #3 #4 #5 #6 #7\n2 1 #8 #9 #10 #11 #12 #13 #14 #15
3 1 #16 #17 #18 #19 #20 #21 #22 #23\n4 1 #24 #25 #26 #27 #28 #29 #30 #31
5 1 #32 #33 #34 #35 #36 #37 #38 #39\n6 1 #40 #41 #42 #43 #44 #45 #46 #47
7 1 #48 #49 #50 #51 #52 #53 #54 #55\n8 1 #56 #57 #58 #59 #60 #61 #62 #63
9 1 #64 #65 #66 #67 #68 #69 #70 #71\n10 1 #72 #73 #74 #75 #76 #77 #78 #79
11 1 #80 #81 #82 #83 #84 #85 #86 #87\n12 1 #88 #89 #90 #91 #92 #93 #94 #95
13 1 #96 #97 #98 #99 #100 #101 #102 #103\n14 1 #104 #105 #106 #107 #108 #109 #110 #111
15 1 #112 #113 #114 #115 #116 #117 #118 #119\n16 1 #120 #121 #122 #123 #124 #125 #126 #127
17 1 #18446744073709551544 ?1 !2 !3 !4 !5 !6 !7
18 1 #18446744073709551615 ?1 !2 !3 !4 !5 !6 !7
partition views\n1 1 2 3 4 5 6 7 8 9 10 11 12 13 14 15 16 17 18\n",
    )
    .unwrap_or(load::empty_policy())
}

// View k hides the columns at the bits of k, column 1 at bit 0; the partition grants all 32.
pub fn forty() -> Policy {
    load::load(
        b"table columns\n1 8\n2 1\nview table terms
1 1 ?0 !1 !2 !3 !4 !5 !6 !7\n2 1 !0 ?1 !2 !3 !4 !5 !6 !7\n3 1 ?0 ?1 !2 !3 !4 !5 !6 !7\n4 1 !0 !1 ?2 !3 !4 !5 !6 !7
5 1 ?0 !1 ?2 !3 !4 !5 !6 !7\n6 1 !0 ?1 ?2 !3 !4 !5 !6 !7\n7 1 ?0 ?1 ?2 !3 !4 !5 !6 !7\n8 1 !0 !1 !2 ?3 !4 !5 !6 !7
9 1 ?0 !1 !2 ?3 !4 !5 !6 !7\n10 1 !0 ?1 !2 ?3 !4 !5 !6 !7\n11 1 ?0 ?1 !2 ?3 !4 !5 !6 !7\n12 1 !0 !1 ?2 ?3 !4 !5 !6 !7
13 1 ?0 !1 ?2 ?3 !4 !5 !6 !7\n14 1 !0 ?1 ?2 ?3 !4 !5 !6 !7\n15 1 ?0 ?1 ?2 ?3 !4 !5 !6 !7\n16 1 !0 !1 !2 !3 ?4 !5 !6 !7
17 1 ?0 !1 !2 !3 ?4 !5 !6 !7\n18 1 !0 ?1 !2 !3 ?4 !5 !6 !7\n19 1 ?0 ?1 !2 !3 ?4 !5 !6 !7\n20 1 !0 !1 ?2 !3 ?4 !5 !6 !7
21 1 ?0 !1 ?2 !3 ?4 !5 !6 !7\n22 1 !0 ?1 ?2 !3 ?4 !5 !6 !7\n23 1 ?0 ?1 ?2 !3 ?4 !5 !6 !7\n24 1 !0 !1 !2 ?3 ?4 !5 !6 !7
25 1 ?0 !1 !2 ?3 ?4 !5 !6 !7\n26 1 !0 ?1 !2 ?3 ?4 !5 !6 !7\n27 1 ?0 ?1 !2 ?3 ?4 !5 !6 !7\n28 1 !0 !1 ?2 ?3 ?4 !5 !6 !7
29 1 ?0 !1 ?2 ?3 ?4 !5 !6 !7\n30 1 !0 ?1 ?2 ?3 ?4 !5 !6 !7\n31 1 ?0 ?1 ?2 ?3 ?4 !5 !6 !7\n32 1 !0 !1 !2 !3 !4 ?5 !6 !7
partition views\n1 1 2 3 4 5 6 7 8 9 10 11 12 13 14 15 16 17 18 19 20 21 22 23 24 25 26 27 28 29 30 31 32\n",
    )
    .unwrap_or(load::empty_policy())
}
