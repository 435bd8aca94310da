// A reply and the buffer behind it, compared with what document 02 lays down. Each function takes the number of cases before it and gives
// its own.

ghost use Rattle.std.specs.Prelude.{◌≡◌, ◌≤◌, All, length};

use model::{Policy, Refusal};
use test_expect::Said;

// How many bytes are lent at most.
pub const ROOM: usize = 2000;

// What stands in the buffer at a place before the call: no two neighbours are alike.
fn untouched_at(i: usize) -> u8 {
    (i % 251) as u8
}

fn untouched() -> [u8; ROOM]
    ensures { 2000 ≡ length result }
{
    let mut out = [0; ROOM];
    for (i, byte) in out.iter_mut().enumerate() {
        *byte = untouched_at(i);
    }
    out
}

fn told(r: Result<usize, Refusal>) -> Said {
    match r {
        Ok(bytes) => test_expect::written(bytes as u64),
        Err(Refusal { number, line }) => test_expect::refused(number, line),
    }
}

// Whether the text stands at its place, and the other bytes are as they were.
fn stands(out: &[u8; ROOM], place: usize, text: &[u8]) -> bool {
    for (i, byte) in out.iter().enumerate() {
        let expected = if place <= i && i - place < text.len() {
            text[i - place]
        } else {
            untouched_at(i)
        };
        if *byte != expected {
            return false;
        }
    }
    true
}

// One case more, and its number; it is printed with its rule where it is not as it should be.
fn counted(n: u64, rule: &[u8], got: Said, right: bool) -> u64 {
    let at = test_expect::counted(n);
    if !right {
        test_expect::print_case(at, got);
        io::write_all(1, b" of ");
        io::write_all(1, rule);
        io::write_all(1, b"\n");
    }
    at
}

// The call says this, `room` bytes being lent; the text stands at its place, and every other byte is as it was.
fn case_at(
    n: u64,
    p: Policy,
    rule: &[u8],
    room: usize,
    place: usize,
    said: Said,
    text: &[u8],
) -> u64
    requires { room ≤ 2000 }
{
    let mut out = untouched();
    let got = told(import::import_rule(p, rule, &mut out[..room], place));
    let right = got == said && stands(&out, place, text);
    counted(n, rule, got, right)
}

// The text is written at this place of a buffer of `room` bytes.
pub fn written_at(n: u64, p: Policy, rule: &[u8], room: usize, place: usize, text: &[u8]) -> u64
    requires { room ≤ 2000 }
{
    let said = test_expect::written(text.len() as u64);
    case_at(n, p, rule, room, place, said, text)
}

// The same in buffers of many sizes, each with its place.
pub fn all_written_at(
    start: u64,
    p: Policy,
    rule: &[u8],
    rooms: &[(usize, usize)],
    text: &[u8],
) -> u64
    requires { All (λ c. c.0 ≤ 2000) rooms.now }
{
    let mut n = start;
    for (room, place) in rooms {
        n = written_at(n, p, rule, *room, *place, text);
    }
    n
}

// The text is written.
pub fn written(n: u64, p: Policy, rule: &[u8], text: &[u8]) -> u64 {
    written_at(n, p, rule, ROOM, 7, text)
}

// The call is turned back with this number and line, `room` bytes being lent, and no byte is written.
pub fn refused_at(
    n: u64,
    p: Policy,
    rule: &[u8],
    room: usize,
    place: usize,
    number: u64,
    line: u64,
) -> u64
    requires { room ≤ 2000 }
{
    let said = test_expect::refused(number, line);
    case_at(n, p, rule, room, place, said, b"")
}

// A rule, how many bytes are lent, a place, and the number and the line of what turns the call back.
pub type RefusedCase<'a> = (&'a [u8], usize, usize, u64, u64);

// The calls behind `start` cases, under one policy; how many cases there are then.
pub fn all_refused_at(start: u64, p: Policy, cases: &[RefusedCase]) -> u64
    requires { All (λ c. c.1 ≤ 2000) cases.now }
{
    let mut n = start;
    for (rule, room, place, number, line) in cases {
        n = refused_at(n, p, rule, *room, *place, *number, *line);
    }
    n
}

// The rule is turned back with this number, at line 1.
pub fn refused(n: u64, p: Policy, rule: &[u8], number: u64) -> u64 {
    refused_at(n, p, rule, ROOM, 7, number, 1)
}

// The rule is turned back with this number, at line 1, or becomes the text where the number is 0.
pub fn case(n: u64, p: Policy, rule: &[u8], number: u64, text: &[u8]) -> u64 {
    let said = if number == 0 {
        test_expect::written(text.len() as u64)
    } else {
        test_expect::refused(number, 1)
    };
    case_at(n, p, rule, ROOM, 7, said, text)
}

// The bytes written are a query that is decided so in a session with these partitions open, and these are left open.
pub fn decided(n: u64, p: Policy, rule: &[u8], mask: u64, said: Said, left: u64) -> u64 {
    let mut out = untouched();
    let place = 7;
    let got = told(import::import_rule(p, rule, &mut out, place));
    let count = got.count as usize;
    if ROOM - place < count {
        return counted(n, rule, got, false);
    }
    let end = place + count;
    test_expect::decided(n, p, mask, &out[place..end], said, left)
}
