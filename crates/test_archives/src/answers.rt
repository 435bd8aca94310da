// Answers by document 01's definition, over every valuation. Values are 0, 1 and 2, so there are nine rows of two columns, and
// an archive is a word of nine bits, row (x, y) at bit 3 * x + y: there are 512.

ghost use Rattle.std.specs.Prelude.{◌<◌};

use crate::family::{NONE, QUERIES, Query};

// The answers of each query on archives 0 to 511.
pub type Table = [[u16; 512]; QUERIES];

// The value of a term, given by its number, under a valuation: a number below 81, whose digits to the base 3 are, from the last
// one on, the values of variables 1, 2, 3 and 4.
fn value(term: u64, valuation: u64) -> u64
    ensures { result < 3 }
{
    match term {
        // #0
        0 => 0,
        // !1
        1 => valuation % 3,
        // ?3
        2 => valuation / 9 % 3,
        // ?4
        3 => valuation / 27 % 3,
        // #1
        4 => 1,
        // !2
        _ => valuation / 3 % 3,
    }
}

// The row that a line becomes under a valuation, as the archive of that row alone.
fn row(line: u64, valuation: u64) -> u64 {
    if line == NONE {
        return 0;
    }
    let x = value(line / 6, valuation);
    let y = value(line % 6, valuation);
    1 << (3 * x + y)
}

// For each valuation the rows that an archive must hold.
fn rows_of(q: Query, rows: &mut [u64; 81]) {
    for (k, needed) in rows.iter_mut().enumerate() {
        let valuation = k as u64;
        *needed = row(q.first, valuation) | row(q.second, valuation) | row(q.third, valuation);
    }
}

// The answer as a word of nine bits, value x of `!1` with value y of `!2` at bit x + 3 * y, which is the valuation modulo 9. A
// shown variable that the query lacks takes every value: two answers are the same exactly when their words are.
fn answer(rows: &[u64; 81], archive: u64) -> u16 {
    let mut set = 0;
    for (k, r) in rows.iter().enumerate() {
        if archive & *r == *r {
            set = set | (1 << (k % 9));
        }
    }
    set
}

// The answers of a query on archives 0 to 511.
pub fn fill(q: Query, answers: &mut [u16; 512]) {
    let mut rows = [0; 81];
    rows_of(q, &mut rows);
    for (archive, given) in answers.iter_mut().enumerate() {
        *given = answer(&rows, archive as u64);
    }
}
