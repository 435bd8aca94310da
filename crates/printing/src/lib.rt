// A query's line written to a buffer.

#![tactic(auto)]

ghost use Rattle.std.specs.Prelude.{◌≡◌, ◌+◌, ◌*◌, ◌≤◌, length};
ghost use Rattle.model.specs.Limits.{most_columns};
ghost use Rattle.printing.specs.Printing.{most_term_bytes, most_line_bytes, mark_byte, TermPut, TermsPut, LinePut};

use model::{CONSTANT, Line, SHOWN, Term, UNUSED};

// The byte of a mark.
fn mark_byte(mark: u64) -> u8
    ensures { result ≡ mark_byte mark }
{
    if mark == CONSTANT {
        return b'#';
    }
    if mark == SHOWN {
        return b'!';
    }
    b'?'
}

// A space, and a term behind it.
fn put_term(out: &mut [u8], at: usize, t: Term) -> usize
    requires { at + most_term_bytes ≤ length out.old }
    ensures { TermPut t out.old at out.new result × (result ≤ at + most_term_bytes) }
{
    let a = writing::put_byte(out, at, b' ');
    let b = writing::put_byte(out, a, mark_byte(t.mark));
    writing::put_number(out, b, t.number)
}

// The terms of a line, each behind a space.
fn put_terms(out: &mut [u8], start: usize, line: Line) -> usize
    requires { start + most_columns * most_term_bytes ≤ length out.old }
    ensures { TermsPut line out.old start out.new result × (result ≤ start + most_columns * most_term_bytes) }
{
    let mut at = start;
    for t in &line.terms {
        if t.mark == UNUSED {
            return at;
        }
        at = put_term(out, at, *t);
    }
    at
}

// A line of a query, and the byte that ends it.
pub fn put_line(out: &mut [u8], at: usize, line: Line) -> usize
    requires { at + most_line_bytes ≤ length out.old }
    ensures { LinePut line out.old at out.new result × (result ≤ at + most_line_bytes) }
{
    let a = writing::put_number(out, at, line.table);
    let b = put_terms(out, a, line);
    writing::put_byte(out, b, b'\n')
}
