// The terms of a line from a place of a text on.

ghost use Rattle.std.specs.Prelude.{◌≡◌, ◌≤◌};
ghost use Rattle.model.specs.Limits.{most_columns};
ghost use Rattle.scan.specs.Places.{PlaceIn, EndAt};
ghost use Rattle.scan.specs.TermsAt.{TermAt, TermsAt};

use crate::numbers::number_at;
use model::{HIDDEN, MOST_COLUMNS, SHOWN, Term};

// A term, and the place behind it.
#[derive(Clone, Copy)]
struct TermEnd {
    term: Term,
    end: usize,
}

// The terms of a line, its shown and hidden variables as bits, and the place behind its end.
#[derive(Clone, Copy)]
pub struct Terms {
    pub end: usize,
    pub terms: [Term; MOST_COLUMNS],
    pub shown: u64,
    pub hidden: u64,
}

// The term behind the space at a place.
fn term_at(text: &[u8], at: usize) -> Option<TermEnd>
    requires { PlaceIn text.now at }
    ensures { TermAt text.now at result }
{
    if text.len() < at + 2 {
        return None;
    }
    if text[at] != b' ' {
        return None;
    }
    let mark = model::mark_of(text[at + 1]);
    if mark == 0 {
        return None;
    }
    let n = number_at(text, at + 2)?;
    if !model::within(mark, n.value) {
        return None;
    }
    Some(TermEnd {
        term: Term {
            mark,
            number: n.value,
        },
        end: n.end,
    })
}

// The place behind the byte 10 at a place; none where another byte is.
fn line_end(text: &[u8], at: usize) -> Option<usize>
    ensures { EndAt text.now at result }
{
    if text.len() <= at {
        return None;
    }
    if text[at] != b'\n' {
        return None;
    }
    Some(at + 1)
}

// So many terms, each behind a space, and the end of their line.
pub fn terms_at(text: &[u8], start: usize, width: usize) -> Option<Terms>
    requires { PlaceIn text.now start × (width ≤ most_columns) }
    ensures { TermsAt text.now start width result }
{
    let mut terms = [Term { mark: 0, number: 0 }; MOST_COLUMNS];
    let mut shown = 0;
    let mut hidden = 0;
    let mut at = start;
    for c in 0..width {
        let t = term_at(text, at)?;
        let u = t.term;
        terms[c] = u;
        shown = model::with_mark(SHOWN, shown, u);
        hidden = model::with_mark(HIDDEN, hidden, u);
        at = t.end;
    }
    let end = line_end(text, at)?;
    Some(Terms {
        end,
        terms,
        shown,
        hidden,
    })
}
