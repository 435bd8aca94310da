// A line as a row, which views match that row, and the row again with marks in a view's hidden columns.

ghost use Rattle.std.specs.Prelude.{◌≡◌, ◌<◌, ◌≤◌};
ghost use Rattle.model.specs.Limits.{most_columns};
ghost use Rattle.model.specs.Rows.{HasRow};
ghost use Rattle.freezing.specs.Blocks.{last_base};
ghost use Rattle.freezing.specs.Rows.{frozen_term, SmallTerm, SomeLine, LineFrozen, FirstAlike, MatchGiven, CellMarked, MarkedGiven};

use crate::blocks::VARIABLES;
use model::{CONSTANT, HIDDEN, MOST_COLUMNS, Term, same_term};

// "Each row is nine 64-bit numbers: the table, then eight values, unused ones 0."
pub const ROW_CELLS: usize = 1 + MOST_COLUMNS;

pub type Cells = [u64; ROW_CELLS];

// The number that stands for a term: a constant itself, a variable's number in the block, and 0 for an unused term.
fn frozen(base: u64, t: Term) -> u64
    requires { (base ≤ last_base) × SmallTerm t }
    ensures { result ≡ frozen_term base t }
{
    if CONSTANT < t.mark {
        return base + t.number;
    }
    t.number
}

// The line in row i as a row of its table.
pub fn frozen_row(base: u64, lines: &[u64], i: usize) -> Cells
    requires { (base ≤ last_base) × HasRow lines.now i × SomeLine lines.now i }
    ensures { LineFrozen base lines.now i result }
{
    let mut cells = [0; ROW_CELLS];
    cells[0] = model::table_at(lines, i);
    for p in 0..MOST_COLUMNS {
        let t = model::term_at(lines, i, p);
        cells[1 + p] = frozen(base, t);
    }
    cells
}

// The first column of row k that has the same term as column p.
fn first_column(rows: &[u64], k: usize, p: usize) -> usize
    requires { HasRow rows.now k × (p < most_columns) }
    ensures { FirstAlike rows.now k p result }
{
    let t = model::term_at(rows, k, p);
    for q in 0..p {
        let u = model::term_at(rows, k, q);
        if same_term(u, t) {
            return q;
        }
    }
    p
}

// Whether some valuation turns the view in row k into the row, which is of the view's table: its constants stand there, and equal
// values where it has equal variables.
pub fn matches(views: &[u64], k: usize, cells: Cells) -> bool
    requires { HasRow views.now k }
    ensures { MatchGiven views.now k cells result }
{
    for p in 0..MOST_COLUMNS {
        let t = model::term_at(views, k, p);
        let q = first_column(views, k, p);
        if t.mark == CONSTANT && t.number != cells[1 + p] {
            return false;
        }
        if cells[1 + q] != cells[1 + p] {
            return false;
        }
    }
    true
}

// What becomes of a cell under a view's term that stands first in column q: a hidden variable has that column's mark.
fn marked_cell(base: u64, t: Term, q: usize, cell: u64) -> u64
    requires { (base ≤ last_base) × (q < most_columns) }
    ensures { CellMarked base t q cell result }
{
    if t.mark == HIDDEN {
        return base + VARIABLES + q as u64;
    }
    cell
}

// The row with a mark wherever the view in row k has a hidden variable: that of the variable's first column.
pub fn marked_row(base: u64, views: &[u64], k: usize, cells: Cells) -> Cells
    requires { (base ≤ last_base) × HasRow views.now k }
    ensures { MarkedGiven base views.now k cells result }
{
    let mut marked = cells;
    for p in 0..MOST_COLUMNS {
        let t = model::term_at(views, k, p);
        let q = first_column(views, k, p);
        marked[1 + p] = marked_cell(base, t, q, cells[1 + p]);
    }
    marked
}
