// The smallest extra grant by trying every set of the seven views, as a word with view n at bit n - 1.

ghost use Rattle.std.specs.Prelude.{◌≤◌};

use crate::drawing::{ALL, Drawn};

// "A partition settles a query when each label holds one of its views."
fn settles(views: u64, labels: u64, lines: usize) -> bool
    requires { lines ≤ 8 }
{
    (0..lines).all(|j| labels >> (8 * j) & views != 0)
}

// Whether some label holds no view.
pub fn lacks_views(d: Drawn) -> bool
    requires { d.lines ≤ 8 }
{
    !settles(ALL, d.labels, d.lines)
}

// Whether a set has fewer views than another, or as many and the least view in which the two differ.
fn is_better(a: u64, b: u64) -> bool {
    let m = u64::count_ones(a);
    let n = u64::count_ones(b);
    if m != n {
        return m < n;
    }
    let differing = a ^ b;
    let least = differing & (differing ^ differing.wrapping_sub(1));
    a & least != 0
}

// The best set to add, where each label holds a view, so that all seven would do.
pub fn best(d: Drawn) -> u64
    requires { d.lines ≤ 8 }
{
    let mut best = ALL;
    for added in 0..ALL {
        if settles(d.granted | added, d.labels, d.lines) && is_better(added, best) {
            best = added;
        }
    }
    best
}
