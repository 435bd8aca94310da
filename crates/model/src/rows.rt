// Lines laid out as numbers, which are lent where a line would be copied: a row is a table and then the mark and the number of
// each term, and row k stands behind the first k.

ghost use Rattle.std.specs.Prelude.{◌≡◌, ◌<◌};
ghost use Rattle.model.specs.Limits.{most_columns};
ghost use Rattle.model.specs.Rows.{HasRow, laid_table, laid_term, set_mark, LaidInto};

use crate::{Line, MOST_COLUMNS, Term};

// How many numbers a row has.
pub const ROW: usize = 1 + MOST_COLUMNS * 2;

// The table of row k.
pub fn table_at(rows: &[u64], k: usize) -> u64
    requires { HasRow rows.now k }
    ensures { result ≡ laid_table rows.now k }
{
    rows[k * ROW]
}

// The term in column p of row k.
pub fn term_at(rows: &[u64], k: usize, p: usize) -> Term
    requires { HasRow rows.now k × (p < most_columns) }
    ensures { result ≡ laid_term rows.now k p }
{
    let at = k * ROW + 1 + p * 2;
    Term {
        mark: rows[at],
        number: rows[at + 1],
    }
}

// Another mark for the term in column p of row k.
pub fn set_mark(rows: &mut [u64], k: usize, p: usize, mark: u64)
    requires { HasRow rows.old k × (p < most_columns) }
    ensures { rows.new ≡ set_mark rows.old k p mark }
{
    rows[k * ROW + 1 + p * 2] = mark;
}

// The line in row k; the other rows stay.
pub fn lay_line(l: Line, k: usize, rows: &mut [u64])
    requires { HasRow rows.old k }
    ensures { LaidInto l k rows.old rows.new }
{
    for (p, t) in l.terms.iter().enumerate() {
        let at = k * ROW + 1 + p * 2;
        rows[at] = t.mark;
        rows[at + 1] = t.number;
    }
    rows[k * ROW] = l.table;
}
