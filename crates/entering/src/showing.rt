// Showing the hidden variables that two lines or more share.

ghost use Rattle.std.specs.Prelude.{◌≡◌, ◌&&◌, ◌≤◌, length};
ghost use Rattle.theory.specs.Query.{Query as TheQuery};
ghost use Rattle.words.specs.Bits.{is_set};
ghost use Rattle.model.specs.Limits.{most_lines};
ghost use Rattle.model.specs.Rows.{query_rows_long};
ghost use Rattle.entering.specs.Left.{lines_at};
ghost use Rattle.entering.specs.Showing.{hidden_term, SharedWord, show_value, ShownRows};
ghost use Rattle.entering.specs.Worded.{query_words_long, Worded};

use crate::hiding::hidden_of;
use model::{HIDDEN, LAST_VARIABLE, MOST_COLUMNS, SHOWN, Term};

// A hidden variable whose number has a bit.
pub fn is_hidden(t: Term) -> bool
    ensures { result ≡ hidden_term t }
{
    if t.mark != HIDDEN {
        return false;
    }
    t.number <= LAST_VARIABLE
}

// The hidden variables that stand in two or more of the lines left of n lines, as bits.
pub fn shared(n: usize, words: &[u64], left: u64) -> u64
    requires { (n ≤ most_lines) × (length words.now ≡ query_words_long) }
    ensures { (Q : TheQuery) → length Q ≡ n → Worded Q words.now → SharedWord (lines_at left Q) result }
{
    let mut once = 0;
    let mut twice = 0;
    for i in 0..n {
        let there = words::has_bit(left, i as u64);
        let w = words::value_if(hidden_of(words, i), there);
        twice = twice | (once & w);
        once = once | w;
    }
    twice
}

// Whether the term is one of the hidden variables `shared`. The bit is looked up before the mark, so that nothing branches on either.
pub fn is_shared(shared: u64, t: Term) -> bool
    ensures { result ≡ (hidden_term t && is_set shared t.number) }
{
    let there = words::has_bit(shared, t.number % words::BITS);
    if !is_hidden(t) {
        return false;
    }
    there
}

// The term, shown if its bit is set.
fn show_term(shared: u64, t: Term) -> Term
    ensures { result ≡ show_value shared t }
{
    if is_shared(shared, t) {
        return Term {
            mark: SHOWN,
            number: t.number,
        };
    }
    t
}

// The first n rows with their shared variables shown.
pub fn show(n: usize, lines: &mut [u64], shared: u64)
    requires { (n ≤ most_lines) × (length lines.old ≡ query_rows_long) }
    ensures { ShownRows n lines.old shared lines.new }
{
    if shared == 0 {
        return;
    }
    for i in 0..n {
        for p in 0..MOST_COLUMNS {
            let u = show_term(shared, model::term_at(lines, i, p));
            model::set_mark(lines, i, p, u.mark);
        }
    }
}
