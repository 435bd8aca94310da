// Where a term stands in a row.

ghost use Rattle.std.specs.Prelude.{◌≡◌, ◌<◌, length};
ghost use Rattle.model.specs.Limits.{most_lines};
ghost use Rattle.model.specs.Rows.{query_rows_long};
ghost use Rattle.reduce.specs.Columns.{FirstColumn};

use model::{MOST_COLUMNS, Term};

// The first column of row b that has the term; column 0 where none has.
pub fn column_of(lines: &[u64], b: usize, t: Term) -> usize
    requires { (length lines.now ≡ query_rows_long) × (b < most_lines) }
    ensures { FirstColumn lines.now b t result }
{
    for q in 0..MOST_COLUMNS {
        if model::same_term(t, model::term_at(lines, b, q)) {
            return q;
        }
    }
    0
}
