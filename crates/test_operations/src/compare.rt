// A reply and the buffer behind it, compared with those that document 01 lays down. Each function takes the number of cases before
// it and gives its own; `room` is how many of the buffer's cells are lent.

ghost use Rattle.std.specs.Prelude.{◌≤◌};

use desk::Explaining;
use model::{Policy, Refusal};
use test_expect::{Said, cells};

// ---- labels

fn told_labels(r: Result<usize, Refusal>) -> Said {
    match r {
        Ok(count) => test_expect::given(count as u64),
        Err(Refusal { number, line }) => test_expect::refused(number, line),
    }
}

// The call for labels says this, and leaves these cells.
pub fn labels(n: u64, p: Policy, text: &[u8], room: usize, said: Said, cells: [u64; 10]) -> u64
    requires { room ≤ 10 }
{
    let mut buffer = cells::untouched();
    let r = desk::labels(p, text, &mut buffer[..room]);
    cells::compared(n, text, told_labels(r), buffer, said, cells)
}

// ---- explanations

fn told_words(r: Result<Explaining, Refusal>) -> Said {
    match r {
        Ok(
            Explaining {
                is_settled: true,
                count,
            },
        ) => test_expect::settled(count as u64),
        Ok(Explaining { count, .. }) => test_expect::unsettled(count as u64),
        Err(Refusal { number, line }) => test_expect::refused(number, line),
    }
}

// The call for an explanation says this, and leaves these cells.
pub fn words(
    n: u64,
    p: Policy,
    partition: u64,
    text: &[u8],
    room: usize,
    said: Said,
    cells: [u64; 10],
) -> u64
    requires { room ≤ 10 }
{
    let mut buffer = cells::untouched_32();
    let r = desk::explain(p, partition, text, &mut buffer[..room]);
    cells::compared(n, text, told_words(r), cells::widened(buffer), said, cells)
}
