// The body of a rule: its atoms, and the first check that turns them back.

ghost use Rattle.std.specs.Prelude.{◌≡◌, false, ◌<◌, ◌≤◌, ◌^◌, length, MatchOption};
ghost use Rattle.std.proofs.Math.Option.{none};
ghost use Rattle.text.specs.Lines.{parts};
ghost use Rattle.model.specs.Limits.{most_lines};
ghost use Rattle.rules.specs.Text.{closing, body_of};
ghost use Rattle.rules.specs.Checks.{atom_within};
ghost use Rattle.rule_body.specs.Body.{AtomTabled, AtomChecked, soonest, no_atoms, LineBehind, AtomIs, AtomBehind, BodyRead};

use model::{Line, MOST_LINES, Query, Tables};
use rule_text::{Atom, Unreadable, read_atom};

// What stands before the first atom, and before each other.
const ARROW: &[u8] = b" :- ";

const COMMA: &[u8] = b", ";

// The number of what turns the atoms back, if anything does; else they are the lines of the query.
#[derive(Clone, Copy)]
pub struct Body {
    pub fault: Option<u64>,
    pub query: Query,
}

// The atoms read so far, how many there are, and the first check that one of them fails.
#[derive(Clone, Copy)]
struct Atoms {
    count: usize,
    fault: Option<u64>,
    query: Query,
}

fn no_atoms() -> Atoms
    ensures { result ≡ no_atoms }
{
    Atoms {
        count: 0,
        fault: None,
        query: query_text::no_query(),
    }
}

// What turns back an atom within the limits: 4 or 5.
fn atom_fault(tables: Tables, a: Atom) -> Option<u64>
    requires { AtomTabled a }
    ensures { AtomChecked tables a result }
{
    let f = model::check_columns(tables, a.table, a.count);
    if f == 0 { None } else { Some(f) }
}

// The check that comes first of two, which run in the order of their numbers.
fn sooner(f: Option<u64>, g: Option<u64>) -> Option<u64>
    ensures { result ≡ soonest f g }
{
    match (f, g) {
        (Some(m), Some(n)) => Some(m.min(n)),
        (Some(_), None) => f,
        (None, _) => g,
    }
}

// The lines with the atom's behind them, if the query has a place for it.
fn with_line(b: Atoms, a: Atom) -> Query
    ensures { LineBehind b a result }
{
    let mut q = b.query;
    if b.count < MOST_LINES {
        let table = a.table;
        let terms = a.terms;
        q.lines[b.count] = Line { table, terms };
        q.count = b.count + 1;
    }
    q
}

// The atoms with one more behind them.
fn with_atom(tables: Tables, b: Atoms, a: Atom) -> Atoms
    requires { AtomTabled a × (b.count < 2 ^ 32) }
    ensures { AtomBehind b (AtomIs tables a) result }
{
    Atoms {
        count: b.count + 1,
        fault: sooner(b.fault, atom_fault(tables, a)),
        query: with_line(b, a),
    }
}

// The atoms with one behind them of which a number is past its limit.
fn with_outside(b: Atoms) -> Atoms
    requires { b.count < 2 ^ 32 }
    ensures { AtomBehind b (λ widths x. atom_within x ≡ false) result }
{
    Atoms {
        count: b.count + 1,
        fault: sooner(b.fault, Some(2)),
        query: b.query,
    }
}

// The body of a rule up to the bracket that closes its last atom: ` :- T1(x, y, z), T2(x, 7`.
pub fn read_body(tables: Tables, s: &[u8]) -> Option<Body>
    requires { length s.now < 2 ^ 32 }
    ensures { MatchOption result (body_of (parts closing s.now) ≡ none) (λ b. BodyRead tables s.now b × (b.query.count ≤ most_lines)) }
{
    let mut b = no_atoms();
    let mut lead = ARROW;
    for piece in s.split(|c| *c == b')') {
        match read_atom(piece.strip_prefix(lead)?) {
            Err(Unreadable::Malformed) => return None,
            Err(Unreadable::Outside) => b = with_outside(b),
            Ok(a) => b = with_atom(tables, b, a),
        }
        lead = COMMA;
    }
    let fault = if MOST_LINES < b.count {
        Some(7)
    } else {
        b.fault
    };
    Some(Body {
        fault,
        query: b.query,
    })
}
