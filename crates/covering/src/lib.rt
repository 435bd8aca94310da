// Which views cover a line, and the line's label.

#![tactic(auto)]

mod preparing;

ghost use Rattle.std.specs.Prelude.{◌≡◌, not, ◌||◌, ◌+◌, ◌^◌, ◌≤◌, ◌<◌, length};
ghost use Rattle.model.specs.Limits.{most_columns, most_lines};
ghost use Rattle.model.specs.Rows.{query_rows_long, HasRow, laid_table};
ghost use Rattle.covering.specs.Rules.{Obeys, CoversRow};
ghost use Rattle.covering.specs.Prepared.{prepared_long, Tabled};
ghost use Rattle.covering.specs.Labelled.{LabelGiven};

use model::{CONSTANT, HIDDEN, QueryRows, SHOWN, Term, same_term};
use preparing::{FREE_WORDS, GRANT_WORDS, TABLE_WORDS, WIDTH_WORDS};
pub use preparing::{
    Prepared, every_partition, granting, prepare, prepare_for_many, views_of, widths,
};

// ---- covering

fn implies(x: bool, y: bool) -> bool
    ensures { result ≡ (not x || y) }
{
    !x || y
}

// The three rules at columns p and q, where the view has `v` and `w` and the line `a` and `b`.
fn obeys(v: Term, w: Term, a: Term, b: Term) -> bool
    ensures { Obeys v w a b result }
{
    if v.mark == CONSTANT {
        return same_term(a, v);
    }
    let equals = implies(same_term(v, w), same_term(a, b));
    if v.mark == SHOWN {
        return equals;
    }
    if a.mark != HIDDEN {
        return false;
    }
    equals && implies(same_term(a, b), same_term(v, w))
}

// Whether a view covers a line of its table, which has `width` columns: the view in row `v`, the line in row `a` of other rows.
// The columns that are not in the word `bound` are free: no rule breaks there, whatever the line has. The first broken rule ends the
// comparison.
pub fn covers(bound: u64, width: usize, views: &[u64], v: usize, lines: &[u64], a: usize) -> bool
    requires { (bound < 2 ^ width) × (width ≤ most_columns) × HasRow views.now v × HasRow lines.now a }
    ensures { CoversRow bound width views.now v lines.now a result }
{
    let mut ok = true;
    let mut rest = bound;
    'columns: while rest != 0 {
        let p = words::least(rest) as usize;
        let x = model::term_at(views, v, p);
        let y = model::term_at(lines, a, p);
        for q in 0..width {
            let xq = model::term_at(views, v, q);
            let yq = model::term_at(lines, a, q);
            if !obeys(x, xq, y, yq) {
                ok = false;
                break 'columns;
            }
        }
        rest = words::drop_least(rest);
    }
    ok
}

// ---- labels

// The label of a line, and the partitions that grant a view which covers it, partition n at bit n - 1.
#[derive(Clone, Copy)]
pub struct LineLabel {
    pub label: u64,
    pub grants: u64,
}

// The label of the line in row `a`, of one of the tables.
pub fn label_line(ready: &Prepared, lines: &QueryRows, a: usize) -> LineLabel
    requires ready_len { (length ready.now ≡ prepared_long) × (length lines.now ≡ query_rows_long) × (a < most_lines) }
    requires tabled { Tabled ready.now (laid_table lines.now a) }
    ensures { LabelGiven ready.now lines.now a result }
{
    let table = model::table_at(lines, a);
    let width = ready[WIDTH_WORDS + table as usize];
    let every = words::low_bits(width);
    let mut word = 0;
    let mut grants = 0;
    let mut left = ready[TABLE_WORDS + table as usize];
    while left != 0 {
        let k = words::least(left);
        let bound = words::without(every, ready[FREE_WORDS + k as usize]);
        if covers(bound, width as usize, ready, k as usize, lines, a) {
            word = words::set_bit(word, k);
            grants = grants | ready[GRANT_WORDS + k as usize];
        }
        left = words::drop_least(left);
    }
    LineLabel {
        label: words::join(table, word),
        grants,
    }
}
