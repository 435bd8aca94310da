// Rows as lines of a page.

ghost use Rattle.std.specs.Prelude.{◌≡◌, ◌+◌, ◌-◌, ◌*◌, ◌≤◌, length, get_or};
ghost use Rattle.model.specs.Limits.{most_tables};
ghost use Rattle.apart.specs.Archives.{most_cells};
ghost use Rattle.writing.specs.Wrote.{most_field_bytes, Wrote};
ghost use Rattle.page.specs.Numbers.{spaced_numbers};
ghost use Rattle.page.specs.Sizes.{most_page};
ghost use Rattle.mode_apart.specs.Rows.{most_word, most_cell_bytes, most_row_line};
ghost use Rattle.mode_apart.specs.Rows.{SomeRow, SomeRows, SomeArchives, RowPut, RowsPut, ArchivesPut};

use freezing::ROW_CELLS;
use model::Tables;

// Numbers of 64 bits, each behind a space. `page::put_numbers` writes those of 32: one function for both would have to be told what number
// an item is, in its bounds and in its clauses.
fn put_cells(out: &mut [u8], start: usize, cells: &[u64]) -> usize
    requires { start + length cells.now * most_field_bytes ≤ length out.old }
    ensures wrote { Wrote out.old start (spaced_numbers cells.now) out.new result }
    ensures upper_bound { result ≤ start + length cells.now * most_field_bytes }
{
    let mut to = start;
    for n in cells {
        to = page::put_spaced(out, to, *n);
    }
    to
}

// How many columns a table has.
fn width_of(tables: Tables, table: u64) -> u64
    requires { (1 ≤ table) × (table ≤ most_tables) }
    ensures { result ≡ get_or tables.columns (table - 1) 0 }
{
    let k = table as usize - 1;
    tables.columns[k]
}

// A row: what is said of it, its table, and as many values as the table has columns.
fn put_row(out: &mut [u8], at: usize, said: &[u8], tables: Tables, row: &[u64]) -> usize
    requires { (length said.now ≤ most_word) × (at + most_row_line ≤ length out.old) × SomeRow tables row.now }
    ensures row_put { RowPut said.now tables row.now out.old at out.new result }
    ensures upper_bound { (result ≤ at + most_row_line) × (length out.new ≡ length out.old) }
{
    let width = width_of(tables, row[0]) as usize;
    let a = writing::put_bytes(out, at, said);
    let b = put_cells(out, a, &row[..width + 1]);
    writing::put_byte(out, b, b'\n')
}

// The rows behind the odd one.
fn put_rows(out: &mut [u8], start: usize, tables: Tables, cells: &[u64]) -> usize
    requires { (start + length cells.now * most_cell_bytes ≤ length out.old) × SomeRows tables cells.now }
    ensures { RowsPut tables cells.now out.old start out.new result }
{
    let mut to = start;
    for row in cells.chunks_exact(ROW_CELLS) {
        to = put_row(out, to, b"row", tables, row);
    }
    to
}

// How many rows there are, the odd one, and the others.
pub fn put_apart(out: &mut [u8], tables: Tables, cells: &[u64]) -> usize
    requires { (most_page ≤ length out.old) × (length cells.now ≤ most_cells) × SomeArchives tables cells.now }
    ensures { ArchivesPut tables cells.now out.old out.new result }
{
    let count = cells.len() / ROW_CELLS;
    let a = writing::put_bytes(out, 0, b"apart ");
    let b = writing::put_field(out, a, count as u64, b'\n');
    let c = put_row(out, b, b"odd", tables, &cells[..ROW_CELLS]);
    put_rows(out, c, tables, &cells[ROW_CELLS..])
}
