// The names of a body: their keys, each at its first place.

ghost use Rattle.std.specs.Prelude.{◌≡◌, ◌==◌, [], ◌+◌, ◌<◌, ◌≤◌, position};
ghost use Rattle.model.specs.Limits.{most_columns, most_lines};
ghost use Rattle.numbering.specs.Names.{most_names, held, Entered, LineNamed, BodyNamed};

use model::{HIDDEN, Line, MOST_COLUMNS, MOST_LINES, Query};

// The keys of names, the first `count`; behind them any number. There is room for each place of a query where a variable can stand.
#[derive(Clone, Copy)]
pub struct Names {
    keys: [u64; MOST_LINES * MOST_COLUMNS],
    count: usize,
}

impl Names {
    fn none() -> Names
        ensures { (held result ≡ []) × (result.count ≡ 0) }
    {
        Names {
            keys: [0; MOST_LINES * MOST_COLUMNS],
            count: 0,
        }
    }

    pub fn keys(&self) -> &[u64]
        requires { self.now.count ≤ most_names }
        ensures { result.now ≡ held self.now }
    {
        &self.keys[..self.count]
    }

    // A key behind the others, where it is not there yet.
    fn enter(&mut self, key: u64)
        requires { self.old.count < most_names }
        ensures { Entered self.old key self.new }
    {
        if self.keys().contains(&key) {
            return;
        }
        self.keys[self.count] = key;
        self.count += 1;
    }

    // The keys of a line's variables behind those that are there.
    fn enter_line(&mut self, line: Line)
        requires { self.old.count + most_columns ≤ most_names }
        ensures { LineNamed line self.old self.new }
    {
        for t in line.terms {
            if t.mark == HIDDEN {
                self.enter(t.number);
            }
        }
    }
}

// The place of a key among these.
pub fn place_of(keys: &[u64], key: u64) -> Option<usize>
    ensures { result ≡ position (λ k. k == key) keys.now }
{
    keys.iter().position(|k| *k == key)
}

// The names of a body, each at its first place.
pub fn names_of(q: Query) -> Names
    requires { q.count ≤ most_lines }
    ensures { BodyNamed q result }
{
    let mut names = Names::none();
    for line in &q.lines[..q.count] {
        names.enter_line(*line);
    }
    names
}
