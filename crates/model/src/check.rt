ghost use Rattle.std.specs.Prelude.{◌≤◌};
ghost use Rattle.model.specs.Limits.{most_tables};
ghost use Rattle.model.specs.LineChecked.{ColumnsChecked, LineChecked};

use crate::{Parsed, Tables};

// What turns back a line of `count` terms for its table: 4, 5, or 0.
pub fn check_columns(tables: Tables, table: u64, count: usize) -> u64
    requires { (1 ≤ table) × (table ≤ most_tables) }
    ensures { ColumnsChecked tables table count result }
{
    let number = table as usize;
    if tables.count < number {
        return 4;
    }
    let at = number - 1;
    if tables.columns[at] != count as u64 {
        return 5;
    }
    0
}

// What turns back a line within its limits that stands behind lines whose shown and hidden variables are these bits: 4, 5,
// 6, or 0.
pub fn check_line(tables: Tables, shown: u64, hidden: u64, p: Parsed) -> u64
    requires { (1 ≤ p.table) × (p.table ≤ most_tables) }
    ensures { LineChecked tables shown hidden p result }
{
    let f = check_columns(tables, p.table, p.count);
    if f != 0 {
        return f;
    }
    if words::meets(p.shown, hidden | p.hidden) {
        return 6;
    }
    if words::meets(p.hidden, shown | p.shown) {
        return 6;
    }
    0
}
