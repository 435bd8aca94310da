// Lines with the numbers of their variables.

ghost use Rattle.std.specs.Prelude.{◌≡◌, ◌≤◌, length};
ghost use Rattle.numbering.specs.Names.{most_names};
ghost use Rattle.numbering.specs.Lines.{Placed, numbered_term, numbered_line, AllPlaced};

use crate::names::place_of;
use model::{HIDDEN, Line, SHOWN, Term};

// A term with the number of its variable, which is shown where its bit is set.
fn number_term(t: Term, keys: &[u64], shown: u64) -> Term
    requires { Placed keys.now t × (length keys.now ≤ most_names) }
    ensures { result ≡ numbered_term keys.now shown t }
{
    if t.mark != HIDDEN {
        return t;
    }
    let n = place_of(keys, t.number).unwrap_or(keys.len()) as u64;
    if words::has_bit(shown, n) {
        return Term {
            mark: SHOWN,
            number: n,
        };
    }
    Term {
        mark: HIDDEN,
        number: n,
    }
}

// A line with the numbers of its variables.
pub fn number_line(l: Line, keys: &[u64], shown: u64) -> Line
    requires { AllPlaced keys.now l × (length keys.now ≤ most_names) }
    ensures { result ≡ numbered_line keys.now shown l }
{
    let mut r = l;
    for t in r.terms.iter_mut() {
        *t = number_term(*t, keys, shown);
    }
    r
}
