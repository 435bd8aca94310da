// Both archives, table by table.

ghost use Rattle.std.specs.Prelude.{◌≡◌, ◌≤◌, length};

use crate::values;
use crate::values::List;
use model::{MOST_TABLES, Policy};
use valuations::ROW;

// The first values of a row.
fn print_row(row: &[u64], width: usize, known: &List, names: &mut List)
    requires { (length row.now ≡ 9) × (width ≤ 8) }
{
    io::write_all(1, b"     ");
    for value in &row[1..1 + width] {
        io::write_all(1, b" ");
        values::print(*value, known, names);
    }
    io::write_all(1, b"\n");
}

// The rows of a table, under its number; nothing of a table that has none.
fn print_rows(archive: &[u64], table: u64, width: usize, known: &List, names: &mut List)
    requires { width ≤ 8 }
{
    let mut found = false;
    for row in archive.chunks_exact(ROW) {
        if row[0] == table {
            if !found {
                io::write_all(1, b"    table ");
                io::print_decimal(1, table);
                io::write_all(1, b"\n");
            }
            print_row(row, width, known, names);
            found = true;
        }
    }
}

// How many columns the table at a place has.
fn width_at(p: Policy, t: usize) -> usize
    requires { t ≤ 15 }
    ensures { result ≤ 8 }
{
    let tables = p.tables;
    let columns = tables.columns[t];
    std::cmp::min(columns, 8) as usize
}

fn print(p: Policy, archive: &[u64], known: &List, names: &mut List) {
    if archive.len() < ROW {
        io::write_all(1, b"    no row\n");
    }
    for t in 0..MOST_TABLES {
        let width = width_at(p, t);
        print_rows(archive, t as u64 + 1, width, known, names);
    }
}

// The first archive is all rows, the second all but the first of them.
pub fn print_both(p: Policy, rows: &[u64], known: &List, names: &mut List)
    requires { 9 ≤ length rows.now }
{
    let both: [(&[u8], &[u64]); 2] = [(b"  archive 1\n", rows), (b"  archive 2\n", &rows[ROW..])];
    for (said, archive) in both {
        io::write_all(1, said);
        print(p, archive, known, names);
    }
}
