// The policies that more than one program calls the desk under.

use model::Policy;

// Document 01's: partition 1 grants views 2 and 3, partition 2 views 1 and 4.
pub fn example() -> Policy {
    load::load(
        b"table columns\n1 3\n2 2\nview table terms\n1 1 !1 !2 !3\n2 1 !1 !2 ?3\n3 2 !1 !2\n4 2 !1 #7\npartition views\n1 2 3\n2 1 4\n",
    ).unwrap_or(load::empty_policy())
}

// The same with a third table, which has no view, and a third partition, which grants none.
pub fn wider() -> Policy {
    load::load(
        b"table columns\n1 3\n2 2\n3 1
view table terms\n1 1 !1 !2 !3\n2 1 !1 !2 ?3\n3 2 !1 !2\n4 2 !1 #7\npartition views\n1 2 3\n2 1 4\n3\n",
    )
    .unwrap_or(load::empty_policy())
}

// A value that no text gives: partition 2, which grants views 1 and 4, is behind the last.
pub fn altered() -> Policy {
    let mut p = example();
    p.partition_count = 1;
    p
}
