// Numbers from a place of a text on.

ghost use Rattle.std.specs.Prelude.{◌≡◌, ◌+◌, ◌*◌, ◌^◌, ◌<◌, ◌≤◌, length};
ghost use Rattle.scan.specs.Places.{PlaceIn, DigitsBetween, NumberAt, TableAt};

use text::{MOST_DIGITS, Numeral};

// How many digits stand before the last that a numeral may have.
const BEFORE_LAST: usize = MOST_DIGITS - 1;

// A number, and the place behind its digits.
#[derive(Clone, Copy)]
pub struct Number {
    pub value: u64,
    pub end: usize,
}

// The number of the digits between two places, which have this value: there is one at least, and no leading zero.
fn numeral_between(text: &[u8], at: usize, end: usize, value: u64) -> Option<Number>
    requires text_len_bound { length text.now < 2 ^ 32 }
    requires digits_between { DigitsBetween text.now at end value }
    ensures { NumberAt text.now at result }
{
    if end == at {
        return None;
    }
    if end == at + 1 {
        return Some(Number { value, end });
    }
    if text[at] == b'0' {
        return None;
    }
    Some(Number { value, end })
}

// The same with one digit more behind this value; no number where that is past every limit.
fn numeral_with(text: &[u8], at: usize, end: usize, value: u64, d: u64) -> Option<Number>
    requires text_len_bound { length text.now < 2 ^ 32 }
    requires d_bound { (d ≤ 9) × DigitsBetween text.now at end (value * 10 + d) }
    ensures { NumberAt text.now at result }
{
    match text::with_digit(value, d) {
        Numeral::Malformed | Numeral::Large => None,
        Numeral::Value(v) => numeral_between(text, at, end, v),
    }
}

// The numeral that starts at a place and ends before a byte that is no digit, or has all the digits that it may have.
pub fn number_at(text: &[u8], at: usize) -> Option<Number>
    requires { PlaceIn text.now at }
    ensures { NumberAt text.now at result }
{
    let mut value: u64 = 0;
    for i in at..text.len() {
        let d = text::digit(text[i]);
        if 9 < d {
            return numeral_between(text, at, i, value);
        }
        if i == at + BEFORE_LAST {
            return numeral_with(text, at, i + 1, value, d);
        }
        value = value * 10 + d;
    }
    None
}

// A table's number of one digit or two.
pub fn table_at(text: &[u8], at: usize) -> Option<Number>
    requires { PlaceIn text.now at }
    ensures { TableAt text.now at result }
{
    if text.len() < at + 2 {
        return None;
    }
    let d = text::digit(text[at]);
    if 9 < d {
        return None;
    }
    if d == 0 {
        return None;
    }
    let e = text::digit(text[at + 1]);
    if 9 < e {
        return Some(Number {
            value: d,
            end: at + 1,
        });
    }
    Some(Number {
        value: d * 10 + e,
        end: at + 2,
    })
}
