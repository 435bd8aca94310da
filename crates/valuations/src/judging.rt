// Whether rows tell a query apart: no row stands twice, the views of a partition have the same answers with the first row as without it,
// and the query has not.

ghost use Rattle.std.specs.Prelude.{◌≡◌, ◌+◌, ◌*◌, ◌≤◌, ◌<◌, length};

use crate::answers::{answers_of, is_answer, no_answers, shown_word};
use crate::valuation::{ROW, VARIABLES};
use model::{MOST_LINES, MOST_VIEWS, Policy, QueryRows};

fn some_row_twice(rows: &[u64]) -> bool {
    for (j, row) in rows.chunks_exact(ROW).enumerate() {
        if rows.chunks_exact(ROW).take(j).any(|earlier| earlier == row) {
            return true;
        }
    }
    false
}

// Whether a query has an answer on the rows that it has not without the first row. A row less takes answers away and gives none.
fn loses_answer(lines: &[u64], rows: &[u64]) -> bool
    requires { (length lines.now ≤ 136) × (9 ≤ length rows.now) }
{
    let word = shown_word(lines);
    let mut answers = no_answers();
    let count = answers_of(lines, rows, rows, &mut answers);
    let others = &rows[ROW..];
    for answer in answers.chunks_exact(VARIABLES).take(count) {
        if !is_answer(lines, others, word, answer) {
            return true;
        }
    }
    false
}

// The same of the query that is the first n lines.
fn first_lines_lose(lines: &[u64], n: usize, rows: &[u64]) -> bool
    requires { (length lines.now ≡ 136) × (n ≤ 8) × (9 ≤ length rows.now) }
{
    let end = n * model::ROW;
    loses_answer(&lines[..end], rows)
}

// The same where the lines stand in the rows of a query.
fn query_loses(lines: &QueryRows, n: usize, rows: &[u64]) -> bool
    requires { (length lines.now ≡ 136) × (n ≤ 8) × (9 ≤ length rows.now) }
{
    first_lines_lose(lines, n, rows)
}

// Whether partition n, counted from 1, grants the view at place k, counted from 0.
pub fn grants(p: Policy, n: u64, k: usize) -> bool
    requires { k < 32 }
{
    (1..=64).contains(&n) && words::has_bit(p.grants[k], n - 1)
}

// "A view's answers are those of a query with that one line."
pub fn view_rows(p: Policy, k: usize) -> [u64; model::ROW]
    requires { k < 32 }
    ensures { 17 ≡ length result }
{
    let v = p.views[k];
    let mut line = [0; model::ROW];
    model::lay_line(v, 0, &mut line);
    line
}

// Whether some view that partition n grants loses an answer with the first row.
fn some_view_loses(p: Policy, n: u64, rows: &[u64]) -> bool
    requires { 9 ≤ length rows.now }
{
    for k in 0..MOST_VIEWS {
        if grants(p, n, k) && loses_answer(&view_rows(p, k), rows) {
            return true;
        }
    }
    false
}

// Whether the rows tell the query of a text apart, by its lines as they are handed in.
pub fn tells_apart(p: Policy, n: u64, text: &[u8], rows: &[u64]) -> bool
    requires { 9 ≤ length rows.now }
{
    let q = query_text::read_query(p.tables, text).unwrap_or(query_text::no_query());
    if MOST_LINES < q.count {
        return false;
    }
    if some_row_twice(rows) || some_view_loses(p, n, rows) {
        return false;
    }
    let lines = entering::query_rows(q);
    query_loses(&lines, q.count, rows)
}
