// The pairs of a line with a line that it can go to by itself.

ghost use Rattle.std.specs.Prelude.{◌≡◌, true, ◌↔◌, ℕ, ◌<◌, length};
ghost use Rattle.theory.specs.Query.{Query as TheQuery};
ghost use Rattle.model.specs.Limits.{most_lines};
ghost use Rattle.model.specs.Rows.{query_rows_long};
ghost use Rattle.entering.specs.Worded.{query_words_long, twice_word, Given};
ghost use Rattle.reduce.specs.LineTargets.{KeepsOwn};
ghost use Rattle.reduce.specs.Pairs.{Goings, CandidateWord};

use crate::columns::column_of;
use entering::{is_shared, twice_of};
use model::{MOST_COLUMNS, MOST_LINES};

// The pairs of a line with another line.
pub const MOVING: u64 = 0x7fbf_dfef_f7fb_fdfe;

// Whether row t has one term wherever row i has one of the variables `twice`.
fn keeps_own(lines: &[u64], i: usize, t: usize, twice: u64) -> bool
    requires { (length lines.now ≡ query_rows_long) × (i < most_lines) × (t < most_lines) }
    ensures { (result ≡ true) ↔ KeepsOwn lines.now i t twice }
{
    for p in 0..MOST_COLUMNS {
        let x = model::term_at(lines, i, p);
        if is_shared(twice, x) {
            let q = column_of(lines, i, x);
            if !model::same_term(model::term_at(lines, t, p), model::term_at(lines, t, q)) {
                return false;
            }
        }
    }
    true
}

// The same, told at once of a line that has no variable in two columns.
fn goes_itself(lines: &[u64], words: &[u64], i: usize, t: usize) -> bool
    requires { (length lines.now ≡ query_rows_long) × (length words.now ≡ query_words_long) × (i < most_lines) × (t < most_lines) }
    ensures { (result ≡ true) ↔ KeepsOwn lines.now i t (twice_word words.now i) }
{
    let twice = twice_of(words, i);
    if twice == 0 {
        return true;
    }
    keeps_own(lines, i, t, twice)
}

// Those of some pairs that go by themselves; a line that stays does.
pub fn candidates(lines: &[u64], words: &[u64], goings: u64) -> u64
    requires { (length lines.now ≡ query_rows_long) × (length words.now ≡ query_words_long) }
    ensures { (Q : TheQuery) (n : ℕ) → Given Q n lines.now words.now → Goings Q goings
        → CandidateWord Q result }
{
    let mut m = goings;
    let mut rest = goings & MOVING;
    while rest != 0 {
        let p = words::least(rest);
        if !goes_itself(
            lines,
            words,
            p as usize / MOST_LINES,
            p as usize % MOST_LINES,
        ) {
            m = words::clear_bit(m, p);
        }
        rest = words::drop_least(rest);
    }
    m
}
