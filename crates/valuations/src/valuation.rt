// A valuation as it is found, line by line. For each variable the number of the line that gave it its value, counted from 1, or 0; and the
// value. Shown variables come first.

ghost use Rattle.std.specs.Prelude.{◌≡◌, ◌<◌, length};
ghost use Rattle.model.specs.Rows.{HasRow};

use model::{CONSTANT, SHOWN, Term, UNUSED};

// How many variables there are of a mark.
pub const VARIABLES: usize = 64;

pub type Values = [u64; VARIABLES * 2];

// How many numbers a row of an archive has.
pub const ROW: usize = 9;

// Where a variable's value stands.
fn place(t: Term) -> usize
    ensures { result < 128 }
{
    let n = (t.number % 64) as usize;
    if t.mark == SHOWN {
        return n;
    }
    VARIABLES + n
}

// Whether the term becomes the value; a variable that has none gets it from the line.
fn term_becomes(t: Term, value: u64, line: u64, given: &mut Values, values: &mut Values) -> bool {
    if t.mark == UNUSED {
        return true;
    }
    if t.mark == CONSTANT {
        return t.number == value;
    }
    let at = place(t);
    if given[at] != 0 {
        return values[at] == value;
    }
    given[at] = line;
    values[at] = value;
    true
}

// Whether line k becomes the row.
pub fn line_becomes(
    lines: &[u64],
    k: usize,
    row: &[u64],
    given: &mut Values,
    values: &mut Values,
) -> bool
    requires { HasRow lines.now k × (k < 8) × (length row.now ≡ 9) }
{
    if model::table_at(lines, k) != row[0] {
        return false;
    }
    for p in 0..8 {
        let t = model::term_at(lines, k, p);
        if !term_becomes(t, row[1 + p], k as u64 + 1, given, values) {
            return false;
        }
    }
    true
}

// Takes back the values that line k gave.
pub fn take_back(k: usize, given: &mut Values)
    requires { k < 8 }
{
    let line = k as u64 + 1;
    for by in given.iter_mut() {
        if *by == line {
            *by = 0;
        }
    }
}
