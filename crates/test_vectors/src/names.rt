// Names lines altered in one byte or two: each byte in its lowest bit and in its highest, and any two that differ exchanged. The line is no
// names line then, and the text is faulty there.

ghost use Rattle.std.specs.Prelude.{◌<◌, ◌≤◌, length};

use crate::expect::{Kind, case};

// Room for the texts that are altered here.
const ROOM: usize = 64;

// Two bytes of the text replaced, or one; the text is faulty at this line then.
fn replaced(n: u64, kind: Kind, text: &[u8], i: usize, b: u8, j: usize, c: u8, line: u64) -> u64
    requires i_bound { (i < 64) × (j < 64) }
    requires text_len_bound { length text.now ≤ 64 }
{
    let mut t = [0; ROOM];
    writing::put_bytes(&mut t, 0, text);
    t[i] = b;
    t[j] = c;
    let faulty = &t[..text.len()];
    case(n, faulty, kind, faulty, 1, line)
}

fn altered(n: u64, kind: Kind, text: &[u8], i: usize, bits: u8, line: u64) -> u64
    requires i_in_bounds { i < length text.now }
    requires text_len_bound { length text.now ≤ 64 }
{
    let b = text[i] ^ bits;
    replaced(n, kind, text, i, b, i, b, line)
}

// No case where the two bytes are the same.
fn exchanged(n: u64, kind: Kind, text: &[u8], i: usize, j: usize, line: u64) -> u64
    requires i_in_bounds { (i < length text.now) × (j < length text.now) }
    requires text_len_bound { length text.now ≤ 64 }
{
    let b = text[i];
    let c = text[j];
    if b == c {
        return n;
    }
    replaced(n, kind, text, i, c, j, b, line)
}

// A byte exchanged with each that stands behind it and before the end.
fn exchanged_with(start: u64, kind: Kind, text: &[u8], i: usize, end: usize, line: u64) -> u64
    requires i_in_bounds { (i < length text.now) × (end ≤ length text.now) }
    requires text_len_bound { length text.now ≤ 64 }
{
    let mut n = start;
    for j in i + 1..end {
        n = exchanged(n, kind, text, i, j, line);
    }
    n
}

// The names line between two places is the text's line of this number.
fn names_line(start: u64, kind: Kind, text: &[u8], at: usize, end: usize, line: u64) -> u64
    requires end_in_bounds { end ≤ length text.now }
    requires text_len_bound { length text.now ≤ 64 }
{
    let mut n = start;
    for i in at..end {
        n = altered(n, kind, text, i, 1, line);
        n = altered(n, kind, text, i, 128, line);
        n = exchanged_with(n, kind, text, i, end, line);
    }
    n
}

pub fn queries(start: u64) -> u64 {
    names_line(start, Kind::Query, b"table terms\n4 ?1\n", 0, 11, 1)
}

pub fn policies(start: u64) -> u64 {
    let text = *b"table columns\n1 1\nview table terms\n1 1 !1\npartition views\n1 1\n";
    let mut n = names_line(start, Kind::Policy, &text, 0, 13, 1);
    n = names_line(n, Kind::Policy, &text, 18, 34, 3);
    n = names_line(n, Kind::Policy, &text, 42, 57, 5);
    n
}
