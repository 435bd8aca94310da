// Taking out the lines that may go.

ghost use Rattle.std.specs.Prelude.{◌≡◌, ◌^◌, ◌≤◌, ◌<◌, length};
ghost use Rattle.theory.specs.Query.{Query as TheQuery};
ghost use Rattle.theory.specs.Executable.Reduce.{reduce};
ghost use Rattle.model.specs.Limits.{most_lines};
ghost use Rattle.model.specs.Rows.{query_rows_long};
ghost use Rattle.entering.specs.Left.{lines_at, Folds};
ghost use Rattle.entering.specs.Worded.{query_words_long, Given};
ghost use Rattle.reduce.specs.PairNumbers.{most_pairs};
ghost use Rattle.reduce.specs.Pairs.{Goings, PairsTabled};

use crate::assignment::search;
use crate::candidates::{MOVING, candidates};
use crate::folding::fold;
use crate::goings::goings;
use crate::pairs::{PAIRS, pair_words};

// The lines left once each that may go is taken out, the last first.
fn taken(n: usize, rows: u64, candidates: u64, table: &[u64; PAIRS]) -> u64
    requires { (n ≤ most_lines) × (rows < 2 ^ n) × (length table.now ≡ most_pairs) }
    ensures { (Q : TheQuery) → length Q ≡ n → PairsTabled Q rows candidates table.now → Folds Q rows
        → lines_at result Q ≡ reduce Q }
{
    let mut left = words::low_bits(n as u64);
    for i in (0..n).rev() {
        let rest = words::clear_bit(left, i as u64);
        if search(rows, rest, candidates, table) {
            left = rest;
        }
    }
    left
}

// The lines left, where some line could go to another.
fn searched(n: usize, lines: &[u64], words: &[u64], goings: u64) -> u64
    requires { (n ≤ most_lines) × (length lines.now ≡ query_rows_long) × (length words.now ≡ query_words_long) }
    ensures { (Q : TheQuery) → Given Q n lines.now words.now → Goings Q goings → lines_at result Q ≡ reduce Q }
{
    let c = candidates(lines, words, goings);
    let rows = fold(n, lines, words, c);
    let table = pair_words(lines, words, rows, c);
    taken(n, rows, c, &table)
}

// The lines left of n lines once each that may go is taken out, line i at bit i.
pub fn lines_left(n: usize, lines: &[u64], words: &[u64]) -> u64
    requires { (n ≤ most_lines) × (length lines.now ≡ query_rows_long) × (length words.now ≡ query_words_long) }
    ensures { (Q : TheQuery) → Given Q n lines.now words.now → lines_at result Q ≡ reduce Q }
{
    let g = goings(n, lines, words);
    if !words::meets(g, MOVING) {
        return words::low_bits(n as u64);
    }
    searched(n, lines, words, g)
}
