// What the lightest list weighs that hits a set of labels, for every set.

ghost use Rattle.std.specs.Prelude.{◌≡◌, ◌+◌, ◌*◌, ◌≤◌, ◌<◌};
ghost use Rattle.hitting.specs.Table.{SomeSet, Lightest, Weighed, Filled};
ghost use Rattle.hitting.specs.Table.{weight_with, view_weight, most_cost};

use model::{MOST_LINES, MOST_VIEWS};

// The labels that each view hits, the first at place 0.
pub type Hits = [u64; MOST_VIEWS];

// What each view costs.
pub type Costs = [u64; MOST_VIEWS];

// How many sets of labels there are.
pub const SETS: usize = 1 << MOST_LINES;

// For each set of labels a weight.
pub type Table = [u64; SETS];

// A view weighs this and its cost: more than the costs of any list that is looked for, so that weights compare as lengths do and then
// as costs.
const VIEW_WEIGHT: u64 = 1 << 32;

// More than any such list weighs.
pub const TOO_HEAVY: u64 = 1 << 48;

// What a list for a set weighs that begins with the view at place v, by the table.
pub fn weight_with(hits: &Hits, costs: &Costs, table: &Table, m: u64, v: usize) -> u64
    requires { Weighed hits.now costs.now table.now m v }
    ensures { result ≡ weight_with hits.now costs.now table.now m (v + 1) }
{
    let rest = words::without(m, hits[v]);
    VIEW_WEIGHT + costs[v] + table[rest as usize]
}

// What the lightest list for a set weighs, where the table has the sets below it. A view that hits no label of the set leaves the set
// itself, and the entry of that is too heavy yet, so the view is not taken.
fn least_weight(hits: &Hits, costs: &Costs, table: &Table, m: u64) -> u64
    requires { SomeSet hits.now costs.now m × Filled hits.now costs.now table.now m × (0 < m) }
    ensures { Lightest hits.now costs.now m result × (result ≤ m * (view_weight + most_cost)) }
{
    let mut least = TOO_HEAVY;
    for v in 0..MOST_VIEWS {
        least = least.min(weight_with(hits, costs, table, m, v));
    }
    least
}

// The table for the sets up to one of all labels: a view of a set leaves a lesser one.
pub fn fill(hits: &Hits, costs: &Costs, full: u64, table: &mut Table)
    requires { SomeSet hits.now costs.now full × Filled hits.now costs.now table.old 1 }
    ensures { Filled hits.now costs.now table.new (full + 1) }
{
    for m in 1..=full {
        table[m as usize] = least_weight(hits, costs, table, m);
    }
}
