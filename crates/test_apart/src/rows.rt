// A lent buffer of ten cells more than forty rows need. Before a call each holds the same number, so that a cell that is written, or not,
// is seen.

ghost use Rattle.std.specs.Prelude.{◌≡◌, ◌≤◌, length};

use model::{Policy, Tables};

const BEFORE: u64 = 777777777;

pub const CELLS: usize = 370;

pub fn untouched() -> [u64; 370]
    ensures { 370 ≡ length result }
{
    [BEFORE; CELLS]
}

// Whether every cell from a place on is as it was.
pub fn stay(cells: &[u64; 370], from: usize) -> bool {
    cells.iter().skip(from).all(|cell| *cell == BEFORE)
}

// How many cells of a row are used: the table, and its columns. 0 where there is no such table.
fn used(t: Tables, table: u64) -> usize {
    if table < 1 || 16 < table {
        return 0;
    }
    match t.columns[(table - 1) as usize] {
        columns @ 1..=8 => columns as usize + 1,
        _ => 0,
    }
}

// "Each row is nine 64-bit numbers: the table, then eight values, unused ones 0".
fn is_row(t: Tables, row: &[u64]) -> bool
    requires { length row.now ≡ 9 }
{
    let used = used(t, row[0]);
    used != 0 && row.iter().skip(used).all(|cell| *cell == 0)
}

// Whether the first rows are rows of the policy's tables.
pub fn are_rows(p: Policy, cells: &[u64; 370], count: usize) -> bool
    requires { count ≤ 40 }
{
    let t = p.tables;
    for row in cells.chunks_exact(9).take(count) {
        if !is_row(t, row) {
            return false;
        }
    }
    true
}
