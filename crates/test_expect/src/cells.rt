// A lent buffer of ten cells. Before a call each holds the same number, so that a cell that is written, or not, is seen.

ghost use Rattle.std.specs.Prelude.{◌≡◌, ◌≤◌, length};

use crate::said::{Said, counted, print_case};
use text::Numeral;

const BEFORE: u64 = 777777777;

// The buffer as it is before a call, and after one that is turned back.
pub fn untouched() -> [u64; 10]
    ensures { 10 ≡ length result }
{
    [BEFORE; 10]
}

pub fn untouched_32() -> [u32; 10]
    ensures { 10 ≡ length result }
{
    [BEFORE as u32; 10]
}

// A list at the head of the buffer: how many numbers it has, and the cells; those past it are as before.
#[derive(Clone, Copy)]
pub struct List {
    pub count: usize,
    pub cells: [u64; 10],
}

// A number; where it is none, the one that the cells hold before, which is none that a call writes.
fn number(bytes: &[u8]) -> u64 {
    match text::read_numeral(bytes) {
        Numeral::Value(value) => value,
        Numeral::Malformed => BEFORE,
        Numeral::Large => BEFORE,
    }
}

// The list that is spelt with a space between two numbers, up to ten of them.
pub fn headed(numbers: &[u8]) -> List
    ensures { result.count ≤ 10 }
{
    let mut cells = untouched();
    let mut count = 0;
    if numbers.is_empty() {
        return List { count, cells };
    }
    let numbers = numbers.strip_suffix(b" ").unwrap_or(numbers);
    for spelt in numbers.split(|b| *b == b' ') {
        if count == 10 {
            break;
        }
        cells[count] = number(spelt);
        count += 1;
    }
    List { count, cells }
}

// The cells of a buffer of 32-bit numbers.
pub fn widened(cells: [u32; 10]) -> [u64; 10] {
    cells.map(u64::from)
}

fn print(cells: [u64; 10]) {
    for cell in cells {
        io::write_all(1, b" ");
        io::print_decimal(1, cell);
    }
}

// One case more, and its number; it is printed where the reply and the cells behind it are not as they should be.
pub fn compared(
    n: u64,
    text: &[u8],
    got: Said,
    after: [u64; 10],
    said: Said,
    cells: [u64; 10],
) -> u64 {
    let at = counted(n);
    if got != said || after != cells {
        print_case(at, got);
        io::write_all(1, b", cells");
        print(after);
        io::write_all(1, b" of ");
        io::write_all(1, text);
        io::write_all(1, b"\n");
    }
    at
}
