// The order of labels beside archives, for lines of two tables of one column each. Values are 0, 1 and 2, so each table has three rows, and
// an archive is a word of six bits, the rows of table 1 below those of table 2, each by its value: there are 64.

ghost use Rattle.std.specs.Prelude.{◌≡◌, ◌+◌, ◌<◌, ◌≤◌, length};

use crate::order;
use crate::order::{Compared, Determined};
use model::Policy;

// The terms. A line's number is that of its term, and 4 more for table 2.
const TERMS: [[u8; 2]; 4] = [*b"#0", *b"#1", *b"!1", *b"?3"];

// How many lines there are. A view is a line too.
const LINES: usize = 8;

const ARCHIVES: usize = 64;

// The answer of a line on an archive as a word: value x of `!1` at bit x, and bit 0 where the line shows nothing.
fn answer(line: usize, archive: usize) -> usize {
    let rows = if line < 4 { archive % 8 } else { archive / 8 };
    match line % 4 {
        // #0
        0 => rows % 2,
        // #1
        1 => rows / 2 % 2,
        // !1
        2 => rows,
        // ?3
        _ => {
            if rows == 0 {
                return 0;
            }
            1
        }
    }
}

// Whether two archives agree on a view and tell a line apart.
fn told_apart(view: usize, line: usize, archive: usize, other: usize) -> bool {
    if answer(view, archive) != answer(view, other) {
        return false;
    }
    answer(line, archive) != answer(line, other)
}

// Whether a view determines a line.
fn determines(view: usize, line: usize) -> bool {
    for archive in 0..ARCHIVES {
        for other in 0..ARCHIVES {
            if told_apart(view, line, archive, other) {
                return false;
            }
        }
    }
    true
}

fn fill_determined(determined: &mut Determined) {
    for view in 0..LINES {
        for line in 0..LINES {
            determined[view][line] = determines(view, line);
        }
    }
}

// The table and the term of a line; the byte between them stays.
fn put_line(text: &mut [u8], at: usize, line: usize)
    requires { (at + 4 ≤ length text.old) × (line < 8) }
    ensures { length text.new ≡ length text.old }
{
    text[at] = if line < 4 { b'1' } else { b'2' };
    text[at + 2..at + 4].copy_from_slice(&TERMS[line % 4]);
}

// The policy of two views.
fn policy(first: usize, second: usize) -> Policy
    requires { (first < 8) × (second < 8) }
{
    let mut text =
        *b"table columns\n1 1\n2 1\nview table terms\n1 1 #0\n2 1 #0\npartition views\n1 1 2\n";
    put_line(&mut text, 41, first);
    put_line(&mut text, 48, second);
    load::load(&text).unwrap_or(load::empty_policy())
}

// The label of a line by the desk.
fn label(p: Policy, line: usize) -> u64
    requires { line < 8 }
{
    let mut text = *b"table terms\n1 #0\n";
    put_line(&mut text, 12, line);
    let mut cells = [0; 1];
    let _ = desk::labels(p, &text, &mut cells);
    cells[0]
}

// Every pair of lines under the policy of two views.
fn try_policy(t: Compared, determined: &Determined, first: usize, second: usize) -> Compared
    requires { (first < 8) × (second < 8) }
{
    let p = policy(first, second);
    let mut labels = [0; LINES];
    for line in 0..LINES {
        labels[line] = label(p, line);
    }
    order::compare(t, determined, &labels, first, second)
}

// Every policy of two views, which ascend and may be equal.
pub fn try_all() -> Compared {
    let mut determined = [[false; order::LINES]; order::LINES];
    fill_determined(&mut determined);
    let mut t = Compared::default();
    for first in 0..LINES {
        for second in first..LINES {
            t = try_policy(t, &determined, first, second);
        }
    }
    t
}
