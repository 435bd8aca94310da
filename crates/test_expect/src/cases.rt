// Files of cases: one a line, between lines that are empty or start with `#`. A case is a row of fields, numbers and texts, each
// ended by `|`. In a text `\n` is a line end and `\x` with two digits the byte that these are in hexadecimal.

ghost use Rattle.std.specs.Prelude.{◌≡◌, ◌<◌, ◌≤◌, MatchOption, length};
ghost use Rattle.io.specs.Counts.{IsPrefixLen};

use text::Numeral;

// A number, and the place behind its field; the line's end where there is no number, so that no field is found behind it.
#[derive(Clone, Copy)]
pub struct Number {
    pub value: u64,
    pub behind: usize,
}

// Whether there is a text, how many bytes it has, and the place behind its field.
#[derive(Clone, Copy)]
pub struct Text {
    pub right: bool,
    pub length: usize,
    pub behind: usize,
}

// A byte of a text, and how many bytes spell it.
#[derive(Clone, Copy)]
struct Letter {
    byte: u8,
    length: usize,
}

// Whether a line is a case.
pub fn is_case(line: &[u8]) -> bool {
    line.len() != 0 && line[0] != b'#'
}

// Says that a line is none that its file may have.
pub fn print_malformed(line: &[u8]) {
    io::write_all(1, b"malformed: ");
    io::write_all(1, line);
    io::write_all(1, b"\n");
}

// The cases of a file behind `start` cases, each line that is one in turn; how many there are then.
pub fn run_all<F: Fn(u64, &[u8]) -> u64>(start: u64, file: &[u8], run_case: F) -> u64
    requires { F.IsAlwaysCallable run_case }
{
    let mut n = start;
    for line in file.split(|b| *b == b'\n') {
        if is_case(line) {
            n = run_case(n, line);
        }
    }
    if !file.is_empty() && !file.ends_with(b"\n") {
        io::write_all(1, b"the last line lacks its end\n");
    }
    n
}

// The place of the first byte like this from a place on, or the end where there is none.
pub fn place_of(s: &[u8], at: usize, b: u8) -> usize
    requires { at ≤ length s.now }
    ensures { (at ≤ result) × (result ≤ length s.now) }
{
    match s[at..].iter().position(|x| *x == b) {
        Some(k) => at + k,
        None => s.len(),
    }
}

// The number whose field starts here.
pub fn number_at(line: &[u8], at: usize) -> Number
    requires { at ≤ length line.now }
    ensures { result.behind ≤ length line.now }
{
    let none = Number {
        value: 0,
        behind: line.len(),
    };
    let end = place_of(line, at, b'|');
    if end == line.len() {
        return none;
    }
    match text::read_numeral(&line[at..end]) {
        Numeral::Value(value) => Number {
            value,
            behind: end + 1,
        },
        Numeral::Malformed => none,
        Numeral::Large => none,
    }
}

// The value of a hexadecimal digit.
fn hex_digit(b: u8) -> Option<u8>
    ensures { MatchOption result (Unit {0}) (λ d. d < 16) }
{
    match b {
        b'0'..=b'9' => Some(b - b'0'),
        b'a'..=b'f' => Some(b - b'a' + 10),
        _ => None,
    }
}

// The first byte that is spelt.
fn first_letter(s: &[u8]) -> Option<Letter>
    ensures { MatchOption result (Unit {0}) (λ l. (0 < l.length) × (l.length ≤ length s.now)) }
{
    match s {
        [b'\\', b'n', ..] => Some(Letter {
            byte: b'\n',
            length: 2,
        }),
        [b'\\', b'x', high, low, ..] => Some(Letter {
            byte: hex_digit(*high)? * 16 + hex_digit(*low)?,
            length: 4,
        }),
        [b'\\', ..] => None,
        [b, ..] => Some(Letter {
            byte: *b,
            length: 1,
        }),
        [] => None,
    }
}

// No text: nothing of it counts but the place behind.
fn no_text(behind: usize) -> Text
    ensures { (result.length ≡ 0) × (result.behind ≡ behind) }
{
    Text {
        right: false,
        length: 0,
        behind,
    }
}

// The text that a field spells, with the place behind it.
fn spelt(field: &[u8], behind: usize, out: &mut [u8]) -> Text
    ensures { IsPrefixLen result.length out.new × (result.behind ≡ behind) }
{
    let mut n = 0;
    let mut at = 0;
    // no `for`: a byte is spelt by one, two or four
    while at < field.len() {
        let Some(letter) = first_letter(&field[at..]) else {
            return no_text(behind);
        };
        if n == out.len() {
            return no_text(behind);
        }
        out[n] = letter.byte;
        n += 1;
        at += letter.length;
    }
    Text {
        right: true,
        length: n,
        behind,
    }
}

// The text whose field starts here, written to the front of a buffer.
pub fn text_at(line: &[u8], at: usize, out: &mut [u8]) -> Text
    requires { at ≤ length line.now }
    ensures { IsPrefixLen result.length out.new × (result.behind ≤ length line.now) }
{
    let end = place_of(line, at, b'|');
    if end == line.len() {
        return no_text(end);
    }
    spelt(&line[at..end], end + 1, out)
}
