// The lines without those that can go while the others stay.

ghost use Rattle.std.specs.Prelude.{◌≡◌, true, ◌^◌, ◌≤◌, ◌<◌, length};
ghost use Rattle.theory.specs.Query.{Query as TheQuery};
ghost use Rattle.model.specs.Limits.{most_lines};
ghost use Rattle.model.specs.Rows.{query_rows_long};
ghost use Rattle.entering.specs.Left.{Folds};
ghost use Rattle.entering.specs.Worded.{query_words_long, Given};
ghost use Rattle.reduce.specs.Alone.{VariablesIn, Keeps, GoesAlone};
ghost use Rattle.reduce.specs.Links.{LineBits};
ghost use Rattle.reduce.specs.Pairs.{CandidateWord};

use crate::assignment::row_of;
use entering::{hidden_of, is_shared};
use model::MOST_COLUMNS;

// Whether row b has each variable of `others` that row i has, where row i has it.
fn stays(lines: &[u64], i: usize, b: usize, others: u64) -> bool
    requires { (length lines.now ≡ query_rows_long) × (i < most_lines) × (b < most_lines) }
    ensures { result ≡ true → Keeps lines.now i b others }
{
    for p in 0..MOST_COLUMNS {
        let t = model::term_at(lines, i, p);
        if is_shared(others, t) {
            let u = model::term_at(lines, b, p);
            if !model::same_term(t, u) {
                return false;
            }
        }
    }
    true
}

// Whether line i can go to one of its targets while lines with the hidden variables `others` stay.
fn goes_alone(lines: &[u64], i: usize, targets: u64, others: u64) -> bool
    requires { (length lines.now ≡ query_rows_long) × (i < most_lines) × LineBits targets }
    ensures { result ≡ true → GoesAlone lines.now i targets others }
{
    let mut rest = targets;
    while rest != 0 {
        if stays(lines, i, words::least(rest) as usize, others) {
            return true;
        }
        rest = words::drop_least(rest);
    }
    false
}

// The hidden variables of some lines.
fn variables(words: &[u64], rows: u64) -> u64
    requires { (length words.now ≡ query_words_long) × LineBits rows }
    ensures { VariablesIn words.now rows result }
{
    let mut m = 0;
    let mut rest = rows;
    while rest != 0 {
        m = m | hidden_of(words, words::least(rest) as usize);
        rest = words::drop_least(rest);
    }
    m
}

// The last first. A map needs no more than targets for the lines left, since all lines can be sent to them; and a search for targets
// is long where many lines can go by themselves.
pub fn fold(n: usize, lines: &[u64], words: &[u64], candidates: u64) -> u64
    requires { (n ≤ most_lines) × (length lines.now ≡ query_rows_long) × (length words.now ≡ query_words_long) }
    ensures upper_bound { result < 2 ^ n }
    ensures folds { (Q : TheQuery) → Given Q n lines.now words.now → CandidateWord Q candidates → Folds Q result }
{
    let mut rows = words::low_bits(n as u64);
    for i in (0..n).rev() {
        let rest = words::clear_bit(rows, i as u64);
        let targets = row_of(candidates, rest, i as u64);
        if targets != 0 {
            if goes_alone(lines, i, targets, variables(words, rest)) {
                rows = rest;
            }
        }
    }
    rows
}
