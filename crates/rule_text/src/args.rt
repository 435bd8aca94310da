// The terms of an atom. A variable is held as a hidden one whose number is the key of its name.

ghost use Rattle.std.specs.Prelude.{◌≡◌, ◌<◌, ◌^◌, length};
ghost use Rattle.rules.specs.Text.{arg_of, args_of};
ghost use Rattle.rule_text.specs.Atoms.{arg_field, args_value, BehindArgs};

use crate::names::{BRACKET, SPACE, read_name};
use model::{CONSTANT, Field, HIDDEN, MOST_COLUMNS, Term};
use text::Numeral;

// What an atom says.
#[derive(Clone, Copy)]
pub struct Atom {
    pub table: u64,
    // how many terms there are; the first MOST_COLUMNS are kept
    pub count: usize,
    pub terms: [Term; MOST_COLUMNS],
}

// Why no atom is read: it is malformed, or a number of it is past its limit.
#[derive(Clone, Copy, PartialEq, Eq)]
pub enum Unreadable {
    Malformed,
    Outside,
}

fn read_arg(field: &[u8]) -> Field
    ensures { result ≡ arg_field (arg_of field.now) }
{
    if let Some(key) = read_name(field, b'a') {
        return Field::Within(Term {
            mark: HIDDEN,
            number: key,
        });
    }
    match text::read_numeral(field) {
        Numeral::Malformed => Field::Malformed,
        Numeral::Large => Field::Outside,
        Numeral::Value(n) => Field::Within(Term {
            mark: CONSTANT,
            number: n,
        }),
    }
}

// The terms with one more behind them.
fn with_arg(a: Atom, t: Term) -> Atom
    requires { a.count < 2 ^ 32 }
    ensures { BehindArgs a t result }
{
    let mut r = a;
    if a.count < MOST_COLUMNS {
        r.terms[a.count] = t;
    }
    r.count = a.count + 1;
    r
}

// The terms of an atom, from the bracket before them on: `(x, y, z`.
pub fn read_args(s: &[u8]) -> Result<Atom, Unreadable>
    requires { length s.now < 2 ^ 32 }
    ensures { result ≡ args_value (args_of s.now) }
{
    let mut a = Atom {
        table: 0,
        count: 0,
        terms: [Term { mark: 0, number: 0 }; MOST_COLUMNS],
    };
    let mut outside = false;
    let mut lead = BRACKET;
    for piece in s.split(|b| *b == b',') {
        let Some(field) = piece.strip_prefix(lead) else {
            return Err(Unreadable::Malformed);
        };
        match read_arg(field) {
            Field::Malformed => return Err(Unreadable::Malformed),
            Field::Outside => outside = true,
            Field::Within(t) => a = with_arg(a, t),
        }
        lead = SPACE;
    }
    if outside {
        return Err(Unreadable::Outside);
    }
    Ok(a)
}
