// The pairs of a line with a line that it could go to, were there no hidden variable in two columns. Pair p is line p / MOST_LINES
// with target p % MOST_LINES.

ghost use Rattle.std.specs.Prelude.{◌≡◌, true, ◌↔◌, ◌^◌, ◌≤◌, ◌<◌, length};
ghost use Rattle.theory.specs.Query.{Query as TheQuery};
ghost use Rattle.model.specs.Limits.{most_columns, most_lines};
ghost use Rattle.model.specs.Rows.{query_rows_long};
ghost use Rattle.words.specs.Sets.{Upto};
ghost use Rattle.entering.specs.Worded.{query_words_long, Given};
ghost use Rattle.reduce.specs.LineTargets.{SameAt, Near, TargetWord};
ghost use Rattle.reduce.specs.Pairs.{Goings};

use entering::columns_of;
use model::{MOST_COLUMNS, MOST_LINES};

// Every column.
const COLUMNS: u64 = (1 << MOST_COLUMNS) - 1;

// Whether rows a and s have the same terms in these columns.
fn same_at(lines: &[u64], a: usize, s: usize, columns: u64) -> bool
    requires { (length lines.now ≡ query_rows_long) × (a < most_lines) × (s < most_lines) × (columns < 2 ^ most_columns) }
    ensures { (result ≡ true) ↔ SameAt lines.now a s columns }
{
    let mut rest = columns;
    while rest != 0 {
        let p = words::least(rest) as usize;
        if !model::same_term(model::term_at(lines, a, p), model::term_at(lines, s, p)) {
            return false;
        }
        rest = words::drop_least(rest);
    }
    true
}

// The lines of line a's table that have no hidden variable in the columns `kept`, as bits. One word is tested for each line, so that
// nothing branches: the pairs are many and few pass.
fn near(n: usize, lines: &[u64], words: &[u64], a: usize, kept: u64) -> u64
    requires { (n ≤ most_lines) × (length lines.now ≡ query_rows_long) × (length words.now ≡ query_words_long) × (a < most_lines) }
    ensures { Upto (Near lines.now words.now a kept) n result }
{
    let table = model::table_at(lines, a);
    let mut m = 0;
    for s in 0..n {
        let odd = (table ^ model::table_at(lines, s)) | (kept & columns_of(words, s));
        m = words::set_bit_if(m, s as u64, odd == 0);
    }
    m
}

// The lines that line a could go to, itself among them.
fn goings_of(n: usize, lines: &[u64], words: &[u64], a: usize) -> u64
    requires { (n ≤ most_lines) × (length lines.now ≡ query_rows_long) × (length words.now ≡ query_words_long) × (a < n) }
    ensures upper_bound { result < 2 ^ most_lines }
    ensures target_word { (Q : TheQuery) → Given Q n lines.now words.now → TargetWord Q a result }
{
    let kept = words::without(COLUMNS, columns_of(words, a));
    let mut m = words::set_bit(0, a as u64);
    let mut rest = words::clear_bit(near(n, lines, words, a, kept), a as u64);
    while rest != 0 {
        let s = words::least(rest);
        let same = same_at(lines, a, s as usize, kept);
        m = words::set_bit_if(m, s, same);
        rest = words::drop_least(rest);
    }
    m
}

// The pairs of a line with a line that it could go to.
pub fn goings(n: usize, lines: &[u64], words: &[u64]) -> u64
    requires { (n ≤ most_lines) × (length lines.now ≡ query_rows_long) × (length words.now ≡ query_words_long) }
    ensures { (Q : TheQuery) → Given Q n lines.now words.now → Goings Q result }
{
    let mut m: u64 = 0;
    for a in 0..n {
        m = m | (goings_of(n, lines, words, a) << (a * MOST_LINES));
    }
    m
}
