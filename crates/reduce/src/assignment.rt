// A target for each line, found by going back and forth over words of candidate pairs of a line and a target.

ghost use Rattle.std.specs.Prelude.{◌≡◌, ◌↔◌, true, false, ◌^◌, ◌<◌, length};
ghost use Rattle.model.specs.Limits.{most_lines};
ghost use Rattle.reduce.specs.Extends.{TargetsOf, EmptyRow, Extends};
ghost use Rattle.reduce.specs.PairNumbers.{most_pairs};

use crate::pairs::PAIRS;
use model::MOST_LINES;

// The targets of line k that are among `targets`: bit j for target j.
pub fn row_of(candidates: u64, targets: u64, k: u64) -> u64
    requires { (k < most_lines) × (targets < 2 ^ most_lines) }
    ensures { TargetsOf candidates targets k result }
{
    (candidates >> (k * MOST_LINES as u64)) & targets
}

// Whether each of the lines of `rows` has a target.
fn rows_left(rows: u64, targets: u64, candidates: u64) -> bool
    requires { (rows < 2 ^ most_lines) × (targets < 2 ^ most_lines) }
    ensures { result ≡ false → EmptyRow rows targets candidates }
{
    let mut rest = rows;
    while rest != 0 {
        let k = words::least(rest);
        if row_of(candidates, targets, k) == 0 {
            return false;
        }
        rest = words::drop_least(rest);
    }
    true
}

// Whether each of the lines of `rows` can be given one of its targets, one of `targets`, such that every two of these pairs
// of a line and a target are compatible. Line i and target j are the pair i * MOST_LINES + j.
pub fn search(rows: u64, targets: u64, candidates: u64, table: &[u64; PAIRS]) -> bool
    requires rows_bound { (rows < 2 ^ most_lines) × (targets < 2 ^ most_lines) }
    requires table_len { length table.now ≡ most_pairs }
    ensures { (result ≡ true) ↔ Extends rows targets candidates table.now }
{
    if rows == 0 {
        return true;
    }
    if !rows_left(rows, targets, candidates) {
        return false;
    }
    let k = words::least(rows);
    let rest = words::drop_least(rows);
    let mut row = row_of(candidates, targets, k);
    while row != 0 {
        let at = (k * MOST_LINES as u64 + words::least(row)) as usize;
        let left = candidates & table[at];
        if search(rest, targets, left, table) {
            return true;
        }
        row = words::drop_least(row);
    }
    false
}
