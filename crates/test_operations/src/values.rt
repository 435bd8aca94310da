// Whether two policy values are the same, in every entry, those behind a count too.

use model::{Line, Policy, Tables, same_term};

fn same_tables(a: Tables, b: Tables) -> bool {
    a.count == b.count && a.columns == b.columns
}

fn same_line(a: &Line, b: &Line) -> bool {
    a.table == b.table && a.terms.iter().zip(&b.terms).all(|(t, u)| same_term(*t, *u))
}

pub fn same(a: Policy, b: Policy) -> bool {
    same_tables(a.tables, b.tables)
        && a.view_count == b.view_count
        && a.views.iter().zip(&b.views).all(|(v, w)| same_line(v, w))
        && a.partition_count == b.partition_count
        && a.grants == b.grants
}
