// A reply and the buffer behind it, compared with what document 02 lays down. Each function takes the number of cases before it and gives
// its own.

ghost use Rattle.std.specs.Prelude.{◌≤◌};

use model::{Policy, Refusal};
use test_expect::{Said, cells};

fn told(r: Result<Option<usize>, Refusal>) -> Said {
    match r {
        Ok(Some(count)) => test_expect::given(count as u64),
        Ok(None) => test_expect::nothing(),
        Err(Refusal { number, line }) => test_expect::refused(number, line),
    }
}

// The reply, and every cell of the buffer after the call, `room` of which are lent.
pub fn replied(
    n: u64,
    p: Policy,
    partition: u64,
    text: &[u8],
    room: usize,
    said: Said,
    cells: [u64; 10],
) -> u64
    requires { room ≤ 10 }
{
    let mut buffer = cells::untouched_32();
    let r = grants::smallest_grant(p, partition, text, &mut buffer[..room]);
    cells::compared(n, text, told(r), cells::widened(buffer), said, cells)
}

// The partition wants these views to settle the query. They are written to a buffer with cells to spare and, asked once more, to one of
// their number; with one cell less the call meets 10. The empty list needs no cell.
pub fn given(n: u64, p: Policy, partition: u64, text: &[u8], count: usize, cells: [u64; 10]) -> u64
    requires { count ≤ 10 }
{
    let said = test_expect::given(count as u64);
    let spare = replied(n, p, partition, text, 10, said, cells);
    let exact = replied(spare, p, partition, text, count, said, cells);
    if count == 0 {
        return exact;
    }
    let short = test_expect::refused(10, 0);
    replied(
        exact,
        p,
        partition,
        text,
        count - 1,
        short,
        cells::untouched(),
    )
}

// Nothing is written, to a buffer and to an empty one.
pub fn unwritten(n: u64, p: Policy, partition: u64, text: &[u8], said: Said) -> u64 {
    let cells = cells::untouched();
    let at = replied(n, p, partition, text, 10, said, cells);
    replied(at, p, partition, text, 0, said, cells)
}
