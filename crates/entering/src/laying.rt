// The lines of a query laid out as numbers.

ghost use Rattle.std.specs.Prelude.{◌≤◌};
ghost use Rattle.theory.specs.Query.{Query as TheQuery};
ghost use Rattle.model.specs.Limits.{most_lines};
ghost use Rattle.entering.specs.Laid.{HoldsQuery, Laid};

use model::{MOST_LINES, Query, QueryRows, ROW};

// The rows of a query, line i in row i.
pub fn query_rows(q: Query) -> QueryRows
    requires { q.count ≤ most_lines }
    ensures { (Q : TheQuery) → HoldsQuery q Q → Laid Q result }
{
    let mut lines = [0; MOST_LINES * ROW];
    for (i, l) in q.lines[..q.count].iter().enumerate() {
        model::lay_line(*l, i, &mut lines);
    }
    lines
}
