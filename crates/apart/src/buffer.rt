// Rows in a lent buffer, one behind the other.

ghost use Rattle.std.specs.Prelude.{◌+◌, ◌*◌, ◌≤◌, length};
ghost use Rattle.freezing.specs.Cells.{row_cells};
ghost use Rattle.apart.specs.Buffer.{HasCells, SameAt, StandsBetween, PutAt};

use freezing::{Cells, ROW_CELLS};

// Writes a row at place k; the other cells stay.
pub fn put_row(out: &mut [u64], k: usize, cells: Cells)
    requires { HasCells out.old k }
    ensures { PutAt k cells out.old out.new }
{
    let start = k * ROW_CELLS;
    out[start..start + ROW_CELLS].copy_from_slice(&cells);
}

// Whether the row at place k is this one.
fn same_row(out: &[u64], k: usize, cells: Cells) -> bool
    requires { HasCells out.now k }
    ensures { SameAt out.now k cells result }
{
    let start = k * ROW_CELLS;
    out[start..start + ROW_CELLS] == cells[..]
}

// Whether the row stands among those from one place on, before another.
pub fn stands(out: &[u64], from: usize, to: usize, cells: Cells) -> bool
    requires { (from ≤ to) × (to * row_cells ≤ length out.now) }
    ensures { StandsBetween out.now from to cells result }
{
    for k in from..to {
        if same_row(out, k, cells) {
            return true;
        }
    }
    false
}
