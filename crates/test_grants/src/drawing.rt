// Pseudo-random queries over seven views.

ghost use Rattle.std.specs.Prelude.{◌≤◌};

// A query and the partition that it is asked of. Byte j of `labels` has the views that cover line j + 1, and `granted` those of the
// partition: view n at bit n - 1. The next query is drawn from `state`.
#[derive(Clone, Copy)]
pub struct Drawn {
    pub labels: u64,
    pub lines: usize,
    pub granted: u64,
    pub state: u64,
}

// All seven views.
pub const ALL: u64 = 127;

// The state behind a state.
fn next(state: u64) -> u64 {
    let a = state ^ (state << 13);
    let b = a ^ (a >> 7);
    b ^ (b << 17)
}

// The views that cover a line, drawn from a state: each with the chance 1 in 2; each with the chance 1 in 4; one view; one or two.
fn label(state: u64, density: u64) -> u64 {
    match density {
        0 => state & ALL,
        1 => state & (state >> 7) & ALL,
        2 => 1 << (state % 7),
        _ => (1 << (state % 7)) | (1 << (state / 7 % 7)),
    }
}

// The views of the partition: none, or each with the chance 1 in 4.
fn granted(state: u64) -> u64 {
    if state >> 24 & 1 == 0 {
        return 0;
    }
    (state >> 8) & (state >> 16) & ALL
}

// A query of one to eight lines.
pub fn draw(from: u64, density: u64) -> Drawn
    ensures { result.lines ≤ 8 }
{
    let first = next(from);
    let mut state = first;
    let mut labels = 0;
    for j in 0..8u64 {
        state = next(state);
        labels |= label(state, density) << (8 * j);
    }
    Drawn {
        labels,
        lines: (first % 8) as usize + 1,
        granted: granted(first),
        state,
    }
}
