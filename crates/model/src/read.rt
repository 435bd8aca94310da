ghost use Rattle.std.specs.Prelude.{◌≡◌, ◌<◌, ◌≤◌, ◌^◌, length};
ghost use Rattle.text.specs.Lines.{fields};
ghost use Rattle.model.specs.Fields.{term, every, query_line};
ghost use Rattle.model.specs.Limits.{last_variable};
ghost use Rattle.model.specs.Marks.{mark_of, number_within, with_mark, Behind};
ghost use Rattle.model.specs.Parsed.{field_value, blank_value, parsed_terms, parsed_line, up_to_value};

use crate::{
    CONSTANT, Field, HIDDEN, LAST_VARIABLE, MOST_COLUMNS, MOST_TABLES, Parsed, SHOWN, Term,
};
use text::Numeral;

// The mark of a byte, or 0. The marks of a text come in no order that a processor could guess, so no branch depends on them.
pub fn mark_of(b: u8) -> u64
    ensures { result ≡ mark_of b }
{
    let constant = words::value_if(CONSTANT, b == b'#');
    let shown = words::value_if(SHOWN, b == b'!');
    let hidden = words::value_if(HIDDEN, b == b'?');
    constant | shown | hidden
}

// Whether a term may have this number: a constant any of 64 bits, a variable none past the last. As above, without a branch.
pub fn within(mark: u64, number: u64) -> bool
    ensures { result ≡ number_within mark number }
{
    (mark == CONSTANT) | (number <= LAST_VARIABLE)
}

pub fn read_term(field: &[u8]) -> Field
    ensures { result ≡ field_value (term field.now) }
{
    if field.len() == 0 {
        return Field::Malformed;
    }
    let mark = mark_of(field[0]);
    if mark == 0 {
        return Field::Malformed;
    }
    match text::read_numeral(&field[1..]) {
        Numeral::Malformed => Field::Malformed,
        Numeral::Large => Field::Outside,
        Numeral::Value(n) => {
            if within(mark, n) {
                Field::Within(Term { mark, number: n })
            } else {
                Field::Outside
            }
        }
    }
}

// A line of which no more is said.
pub fn blank(ok: bool, outside: bool) -> Parsed
    ensures { result ≡ blank_value ok outside }
{
    Parsed {
        ok,
        outside,
        table: 0,
        count: 0,
        terms: [Term { mark: 0, number: 0 }; MOST_COLUMNS],
        shown: 0,
        hidden: 0,
    }
}

// The word with the bit of the term's number set, where the term has the mark.
pub fn with_mark(mark: u64, m: u64, t: Term) -> u64
    requires { t.mark ≡ mark → t.number ≤ last_variable }
    ensures { result ≡ with_mark mark m t }
{
    if t.mark == mark {
        return words::set_bit(m, t.number);
    }
    m
}

// The terms with one more behind them.
fn with_term(p: Parsed, t: Term) -> Parsed
    requires count_bound { p.count < 2 ^ 32 }
    requires number_le_last_variable { 1 < t.mark → t.number ≤ last_variable }
    ensures { Behind p t result }
{
    let mut r = p;
    let at = p.count;
    if at < MOST_COLUMNS {
        r.terms[at] = t;
    }
    r.count = at + 1;
    r.shown = with_mark(SHOWN, p.shown, t);
    r.hidden = with_mark(HIDDEN, p.hidden, t);
    r
}

pub fn read_terms(s: &[u8]) -> Parsed
    requires { length s.now < 2 ^ 32 }
    ensures { result ≡ parsed_terms (every term (fields s.now)) }
{
    let mut p = blank(true, false);
    let mut outside = false;
    for field in s.split(|b| *b == b' ') {
        match read_term(field) {
            Field::Malformed => return blank(false, false),
            Field::Outside => outside = true,
            Field::Within(t) => p = with_term(p, t),
        }
    }
    if outside {
        return blank(true, true);
    }
    p
}

// The number, or 0 where it is not from 1 to the most.
pub fn up_to(n: Numeral, most: u64) -> u64
    ensures { result ≡ up_to_value n most }
{
    match n {
        Numeral::Value(t) => { if t <= most { t } else { 0 } }
        Numeral::Malformed | Numeral::Large => 0,
    }
}

pub fn read_line(s: &[u8]) -> Parsed
    requires { length s.now < 2 ^ 32 }
    ensures { result ≡ parsed_line (query_line s.now) }
{
    let n = text::first(s, b' ');
    if n == s.len() {
        return blank(false, false);
    }
    let number = text::read_numeral(&s[..n]);
    if let Numeral::Malformed = number {
        return blank(false, false);
    }
    let from = n + 1;
    let mut p = read_terms(&s[from..]);
    if !p.ok {
        return p;
    }
    let table = up_to(number, MOST_TABLES as u64);
    if table == 0 {
        return blank(true, true);
    }
    if p.outside {
        return p;
    }
    p.table = table;
    p
}
