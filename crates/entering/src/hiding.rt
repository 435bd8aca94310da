// Three words for each line, which say where its hidden variables stand.

ghost use Rattle.std.specs.Prelude.{◌≡◌, cond, ◌*◌, ◌^◌, ◌≤◌, ◌<◌, length};
ghost use Rattle.theory.specs.Query.{Query as TheQuery};
ghost use Rattle.model.specs.Limits.{most_lines};
ghost use Rattle.model.specs.Rows.{query_rows_long};
ghost use Rattle.entering.specs.Laid.{Laid};
ghost use Rattle.entering.specs.Showing.{hidden_term, Small};
ghost use Rattle.entering.specs.Worded.{query_words_long, columns_word, hidden_word, twice_word, LineEntered, Worded};

use crate::showing::is_hidden;
use model::{MOST_COLUMNS, Term};

// The words of a line: the columns that have a hidden variable, its hidden variables, and those that stand in two columns.
pub const LINE_WORDS: usize = 3;

// The columns of line i that have a hidden variable, as bits.
pub fn columns_of(words: &[u64], i: usize) -> u64
    requires { (length words.now ≡ query_words_long) × (i < most_lines) }
    ensures { result ≡ columns_word words.now i }
{
    words[i * LINE_WORDS]
}

// The hidden variables of line i.
pub fn hidden_of(words: &[u64], i: usize) -> u64
    requires { (length words.now ≡ query_words_long) × (i < most_lines) }
    ensures { result ≡ hidden_word words.now i }
{
    words[i * LINE_WORDS + 1]
}

// Those of them that stand in two columns.
pub fn twice_of(words: &[u64], i: usize) -> u64
    requires { (length words.now ≡ query_words_long) × (i < most_lines) }
    ensures { result ≡ twice_word words.now i }
{
    words[i * LINE_WORDS + 2]
}

// The bit of a hidden variable, and no bit for any other term, without a branch: the remainder keeps the shift within the word.
fn hidden_bit(t: Term) -> u64
    ensures { result ≡ cond (hidden_term t) (2 ^ t.number) 0 }
{
    words::value_if(1 << (t.number % words::BITS), is_hidden(t))
}

// The words of the line in row i; those of other lines stay.
fn enter_words(rows: &[u64], i: usize, words: &mut [u64])
    requires { (length rows.now ≡ query_rows_long) × (length words.old ≡ query_words_long) × (i < most_lines) }
    ensures { LineEntered rows.now i words.old words.new }
{
    let mut columns: u64 = 0;
    let mut hidden: u64 = 0;
    let mut twice: u64 = 0;
    for p in 0..MOST_COLUMNS {
        let t = model::term_at(rows, i, p);
        let bit = hidden_bit(t);
        twice = twice | (hidden & bit);
        hidden = hidden | bit;
        columns = words::set_bit_if(columns, p as u64, bit != 0);
    }
    words[i * LINE_WORDS] = columns;
    words[i * LINE_WORDS + 1] = hidden;
    words[i * LINE_WORDS + 2] = twice;
}

// The words of n lines.
pub fn enter_query(n: usize, rows: &[u64], words: &mut [u64])
    requires { (n ≤ most_lines) × (length rows.now ≡ query_rows_long) × (length words.old ≡ query_words_long) }
    ensures worded { (Q : TheQuery) → length Q ≡ n → Laid Q rows.now → Small Q → Worded Q words.new }
    ensures words_len { length words.new ≡ query_words_long }
{
    for i in 0..n {
        enter_words(rows, i, words);
    }
}
