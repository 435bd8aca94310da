// For each candidate, a pair of a line and a target, the targets of later lines that are compatible with it: two lines bind each other
// only through hidden variables that both have, and a candidate sends each of its variables to one term.

ghost use Rattle.std.specs.Prelude.{◌≡◌, ℕ, ◌^◌, ◌<◌, length};
ghost use Rattle.theory.specs.Query.{Query as TheQuery};
ghost use Rattle.words.specs.Sets.{Upto};
ghost use Rattle.model.specs.Limits.{most_columns, most_lines};
ghost use Rattle.model.specs.Rows.{query_rows_long, laid_term};
ghost use Rattle.entering.specs.Worded.{query_words_long, Given};
ghost use Rattle.reduce.specs.Links.{LineBits, AgreeWord, LinkWord, LinksPut, RowPaired};
ghost use Rattle.reduce.specs.Pairs.{CandidateWord, PairsTabled};
ghost use Rattle.reduce.specs.PairNumbers.{most_pairs};

use crate::assignment::row_of;
use crate::columns::column_of;
use entering::hidden_of;
use model::{HIDDEN, MOST_LINES, Term};

// Every line with every line.
pub const PAIRS: usize = MOST_LINES * MOST_LINES;

// Every line as a target.
const TARGETS: u64 = (1 << MOST_LINES) - 1;

const EVERY_PAIR: u64 = 0xffff_ffff_ffff_ffff;

// The rows that have the term in column q. Rows behind the last line are no candidates, whatever they have.
fn agree_row(lines: &[u64], t: Term, q: usize) -> u64
    requires { (length lines.now ≡ query_rows_long) × (q < most_columns) }
    ensures { Upto (λ u. t ≡ laid_term lines.now u q) most_lines result }
{
    let mut m = 0;
    for u in 0..MOST_LINES {
        let same = model::same_term(t, model::term_at(lines, u, q));
        m = words::set_bit_if(m, u as u64, same);
    }
    m
}

// The targets t of `row` and rows u such that t has in column p what u has in column q, as bit t * MOST_LINES + u.
fn agree_word(lines: &[u64], p: usize, q: usize, row: u64) -> u64
    requires { (length lines.now ≡ query_rows_long) × (p < most_columns) × (q < most_columns) × LineBits row }
    ensures { AgreeWord lines.now p q row result }
{
    let mut m: u64 = 0;
    let mut rest = row;
    while rest != 0 {
        let t = words::least(rest);
        let agreeing = agree_row(lines, model::term_at(lines, t as usize, p), q);
        m = m | (agreeing << (t * MOST_LINES as u64));
        rest = words::drop_least(rest);
    }
    m
}

// The targets t of line a and u of line b that agree on each of the hidden variables `shared`, which both lines have, as bit
// t * MOST_LINES + u. The first column of a variable is enough, since candidates go by themselves.
fn link_word(lines: &[u64], shared: u64, a: usize, b: usize, row: u64) -> u64
    requires { (length lines.now ≡ query_rows_long) × (a < most_lines) × (b < most_lines) × LineBits row }
    ensures { LinkWord lines.now shared a b row result }
{
    let mut w = EVERY_PAIR;
    let mut rest = shared;
    while rest != 0 {
        let t = Term {
            mark: HIDDEN,
            number: words::least(rest),
        };
        let p = column_of(lines, a, t);
        let q = column_of(lines, b, t);
        w = w & agree_word(lines, p, q, row);
        rest = words::drop_least(rest);
    }
    w
}

// For each target t of line a, which are `row`, the targets of line b that `w` has beside it.
fn put_links(w: u64, row: u64, a: usize, b: usize, table: &mut [u64])
    requires { (length table.old ≡ most_pairs) × (a < most_lines) × (b < most_lines) × LineBits row }
    ensures { LinksPut w row a b table.old table.new }
{
    let mut rest = row;
    while rest != 0 {
        let t = words::least(rest);
        let at = a * MOST_LINES + t as usize;
        let links = (w >> (t * MOST_LINES as u64)) & TARGETS;
        table[at] = table[at] | (links << (b * MOST_LINES));
        rest = words::drop_least(rest);
    }
}

// The links of line a with the lines `later`.
fn pair_row(lines: &[u64], words: &[u64], candidates: u64, a: usize, later: u64, table: &mut [u64])
    requires lines_len { (length lines.now ≡ query_rows_long) × (length words.now ≡ query_words_long) × (length table.old ≡ most_pairs) }
    requires a_lt_most_lines { (a < most_lines) × LineBits later }
    ensures row_paired { (Q : TheQuery) (n : ℕ) → Given Q n lines.now words.now → CandidateWord Q candidates
        → RowPaired Q candidates a later table.old table.new }
    ensures table_len { length table.new ≡ most_pairs }
{
    let row = row_of(candidates, TARGETS, a as u64);
    let mut rest = later;
    while rest != 0 {
        let b = words::least(rest) as usize;
        let shared = hidden_of(words, a) & hidden_of(words, b);
        let w = link_word(lines, shared, a, b, row);
        put_links(w, row, a, b, table);
        rest = words::drop_least(rest);
    }
}

// For each candidate of a line of `rows` the targets of later lines of `rows` that are compatible with it.
pub fn pair_words(lines: &[u64], words: &[u64], rows: u64, candidates: u64) -> [u64; PAIRS]
    requires { (length lines.now ≡ query_rows_long) × (length words.now ≡ query_words_long) × (rows < 2 ^ most_lines) }
    ensures pairs_tabled { (Q : TheQuery) (n : ℕ) → Given Q n lines.now words.now → CandidateWord Q candidates
        → PairsTabled Q rows candidates result }
    ensures result_len { length result ≡ most_pairs }
{
    let mut table = [0; PAIRS];
    let mut rest = rows;
    while rest != 0 {
        let a = words::least(rest) as usize;
        rest = words::drop_least(rest);
        pair_row(lines, words, candidates, a, rest, &mut table);
    }
    table
}
