// The policies that the operations are called under: those of the cases, by number, and altered ones.

ghost use Rattle.std.specs.Prelude.{◌<◌};
ghost use Rattle.model.specs.Limits.{most_tables, most_columns, most_views};

use model::{Policy, Term};

// Three views of a table of three columns: one with its first two columns equal, one with the last two hidden and equal, and one
// with these hidden. Partition n grants view n.
fn equal_columns() -> Policy {
    load::load(
        b"table columns\n1 3\nview table terms\n1 1 !1 !1 !2\n2 1 !1 ?2 ?2\n3 1 !1 ?2 ?3\npartition views\n1 1\n2 2\n3 3\n",
    ).unwrap_or(load::empty_policy())
}

// Two views of a table of two columns, each with a constant past 32 bits. Partition n grants view n.
fn long_constants() -> Policy {
    load::load(
        b"table columns\n1 2\nview table terms\n1 1 !1 #18446744073709551615\n2 1 !1 #4294967296\npartition views\n1 1\n2 2\n",
    ).unwrap_or(load::empty_policy())
}

// Two tables of one column, and one view: all rows of the first.
fn single() -> Policy {
    load::load(
        b"table columns\n1 1\n2 1\nview table terms\n1 1 !1\npartition views\n1 1\n",
    ).unwrap_or(load::empty_policy())
}

// Two tables of one column and 32 views of the first: its rows with 1, with 2 and so on up to 31, and all rows. Partition n grants
// view n.
pub fn widest() -> Policy {
    load::load(
        b"table columns\n1 1\n2 1\nview table terms\n1 1 #1\n2 1 #2\n3 1 #3\n4 1 #4\n5 1 #5\n6 1 #6\n7 1 #7\n8 1 #8\n9 1 #9
10 1 #10\n11 1 #11\n12 1 #12\n13 1 #13\n14 1 #14\n15 1 #15\n16 1 #16\n17 1 #17\n18 1 #18\n19 1 #19\n20 1 #20
21 1 #21\n22 1 #22\n23 1 #23\n24 1 #24\n25 1 #25\n26 1 #26\n27 1 #27\n28 1 #28\n29 1 #29\n30 1 #30\n31 1 #31
32 1 !1
partition views\n1 1\n2 2\n3 3\n4 4\n5 5\n6 6\n7 7\n8 8\n9 9\n10 10\n11 11\n12 12\n13 13\n14 14\n15 15\n16 16
17 17\n18 18\n19 19\n20 20\n21 21\n22 22\n23 23\n24 24\n25 25\n26 26\n27 27\n28 28\n29 29\n30 30\n31 31\n32 32
",
    )
    .unwrap_or(load::empty_policy())
}

pub fn policy(number: u64) -> Policy {
    match number {
        1 => test_expect::example(),
        2 => test_expect::wider(),
        3 => equal_columns(),
        4 => long_constants(),
        5 => single(),
        6 => widest(),
        7 => test_expect::altered(),
        _ => load::empty_policy(),
    }
}

// The policy with another count of tables, of views or of partitions.
pub fn with_table_count(p: Policy, count: usize) -> Policy {
    let mut q = p;
    q.tables.count = count;
    q
}

pub fn with_view_count(p: Policy, count: usize) -> Policy {
    let mut q = p;
    q.view_count = count;
    q
}

pub fn with_partition_count(p: Policy, count: usize) -> Policy {
    let mut q = p;
    q.partition_count = count;
    q
}

// The policy with other columns for the table in place i.
pub fn with_columns(p: Policy, i: usize, columns: u64) -> Policy
    requires { i < most_tables }
{
    let mut q = p;
    q.tables.columns[i] = columns;
    q
}

// The policy with other partitions that grant the view in place i: partition n at bit n - 1.
pub fn with_grants(p: Policy, i: usize, partitions: u64) -> Policy
    requires { i < most_views }
{
    let mut q = p;
    q.grants[i] = partitions;
    q
}

// The policy with another table for the view in place i.
pub fn with_view_table(p: Policy, i: usize, table: u64) -> Policy
    requires { i < most_views }
{
    let mut q = p;
    q.views[i].table = table;
    q
}

// The policy with another term in a column of the view in place i.
pub fn with_term(p: Policy, i: usize, column: usize, mark: u64, number: u64) -> Policy
    requires { (i < most_views) × (column < most_columns) }
{
    let mut q = p;
    q.views[i].terms[column] = Term { mark, number };
    q
}
