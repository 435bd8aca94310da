// What every text is made of: lines and fields found in a slice of bytes, names lines, numerals.

#![tactic(auto)]

mod comparing;

ghost use Rattle.std.specs.Prelude.{not, ◌≡◌, ◌+◌, ◌-◌, ◌*◌, ◌<◌, ◌≤◌, ◌^◌, length};
ghost use Rattle.std.proofs.Math.Option.{some};
ghost use Rattle.text.specs.Cursors.{NextLine, AfterNames};
ghost use Rattle.text.specs.Lines.{before};
ghost use Rattle.text.specs.Numeral.{leads};
ghost use Rattle.text.specs.Value.{limited, numeral_value};

pub use comparing::same;

// The most digits of a numeral.
pub const MOST_DIGITS: usize = 20;

// The largest number that any place of a text allows: that of a constant.
const CONSTANT_LIMIT: u64 = 18_446_744_073_709_551_615;

// The names lines.
pub const TABLE_COLUMNS: [u8; 13] = *b"table columns";

pub const VIEW_TABLE_TERMS: [u8; 16] = *b"view table terms";

pub const PARTITION_VIEWS: [u8; 15] = *b"partition views";

pub const TABLE_TERMS: [u8; 11] = *b"table terms";

// What a field says where a numeral is wanted.
#[derive(Drop)]
pub enum Numeral {
    // It is no numeral.
    Malformed,
    // A number past every limit.
    Large,
    Value(u64),
}

// The unread part of a text that is lent, and the number of its next line.
#[derive(Drop)]
pub struct Reader<'a> {
    pub rest: &'a [u8],
    pub line: u64,
}

// A place where a line starts, and the number of that line.
#[derive(Drop)]
pub struct Cursor {
    pub at: usize,
    pub line: u64,
}

// The place of the first byte of `s` that equals `b`, or the length of `s` where there is none.
pub fn first(s: &[u8], b: u8) -> usize
    ensures { result ≡ before b s.now }
{
    s.iter().position(|x| *x == b).unwrap_or(s.len())
}

// A reader's work, on its two parts.
fn behind_line(rest: &[u8], line: u64) -> Cursor
    requires { line + 1 < 2 ^ 64 }
    ensures { NextLine rest.now line result }
{
    let n = first(rest, b'\n');
    Cursor {
        at: n + 1,
        line: line + 1,
    }
}

// Where the line behind a reader's next one starts, and its number. The next line lacks its end where that is past the text.
pub fn next<'a>(r: Reader<'a>) -> Cursor
    requires { r.line + 1 < 2 ^ 64 }
    ensures { NextLine r.entry.rest.now r.entry.line result }
{
    behind_line(r.rest, r.line)
}

// The same of a text that is lent, with the number of its next line: a reader is made of the two.
pub fn next_line(rest: &[u8], line: u64) -> Cursor
    requires { line + 1 < 2 ^ 64 }
    ensures { NextLine rest.now line result }
{
    next(Reader { rest, line })
}

// Where the line behind the names line starts that is the text's first; place 0 where another line is.
pub fn after_names<'a>(text: &'a [u8], names: &'a [u8]) -> Cursor
    ensures { AfterNames names.now text.now result }
{
    let behind = next_line(text, 1);
    if text.len() < behind.at {
        return Cursor { at: 0, line: 1 };
    }
    if !same(&text[..behind.at - 1], names) {
        return Cursor { at: 0, line: 1 };
    }
    behind
}

// A byte that no digit is has a value of 10 or more.
pub fn digit(b: u8) -> u64
    ensures lower_bound { b < 48 → 9 < result }
    ensures value { 48 ≤ b → result ≡ b - 48 }
{
    if b < b'0' {
        return 10;
    }
    u64::from(b - b'0')
}

// Whether the first byte is `0` and others follow.
fn leading_zero(field: &[u8]) -> bool
    ensures { 0 < length field.now → not result ≡ leads field.now }
{
    1 < field.len() && field[0] == b'0'
}

// A number with one digit more behind it, or `Large` where that is past the limit.
pub fn with_digit(value: u64, d: u64) -> Numeral
    requires { d ≤ 9 }
    ensures { result ≡ limited (some (value * 10 + d)) }
{
    if (CONSTANT_LIMIT - d) / 10 < value {
        return Numeral::Large;
    }
    Numeral::Value(value * 10 + d)
}

// Nineteen digits are within the limit whatever they are, so that the last digit alone may lead past it.
pub fn read_numeral(field: &[u8]) -> Numeral
    ensures { result ≡ numeral_value field.now }
{
    let n = field.len();
    if n == 0 || MOST_DIGITS < n || leading_zero(field) {
        return Numeral::Malformed;
    }
    let last = n - 1;
    let mut value = 0;
    for b in &field[..last] {
        let d = digit(*b);
        if 9 < d {
            return Numeral::Malformed;
        }
        value = value * 10 + d;
    }
    let d = digit(field[last]);
    if 9 < d {
        return Numeral::Malformed;
    }
    with_digit(value, d)
}
