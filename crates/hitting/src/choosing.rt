// The best list, read off the table view by view.

ghost use Rattle.std.specs.Prelude.{◌+◌, ◌-◌, ◌^◌, ◌<◌};
ghost use Rattle.hitting.specs.Best.{HoldsBest};
ghost use Rattle.hitting.specs.Table.{Searched, FilledTo, FirstView};

use crate::filling::{Costs, Hits, SETS, TOO_HEAVY, Table, fill, weight_with};
use model::MOST_VIEWS;
use word_list::Words;

// The place of the first view with which a lightest list for a set begins.
fn first_view(hits: &Hits, costs: &Costs, table: &Table, m: u64) -> usize
    requires { FilledTo hits.now costs.now table.now m × (0 < m) }
    ensures { FirstView hits.now costs.now table.now m (result + 1) }
{
    let least = table[m as usize];
    for v in 0..MOST_VIEWS {
        if weight_with(hits, costs, table, m, v) == least {
            return v;
        }
    }
    // a lightest list for the set begins with some view
    unreachable!()
}

// The best list for a set, by the table: the first view that leaves a lightest list, and so on with what it leaves.
fn choose(hits: &Hits, costs: &Costs, table: &Table, m: u64) -> Words
    requires { FilledTo hits.now costs.now table.now m }
    ensures { HoldsBest hits.now costs.now m result }
{
    let mut r = word_list::no_words();
    let mut left = m;
    while left != 0 {
        let v = first_view(hits, costs, table, left);
        r = word_list::push(r, v as u64 + 1);
        left = words::without(left, hits[v]);
    }
    r
}

// The best list for the first k labels.
pub fn best(hits: &Hits, costs: &Costs, k: u64) -> Words
    requires { Searched hits.now costs.now k }
    ensures { HoldsBest hits.now costs.now (2 ^ k - 1) result }
{
    let full = words::low_bits(k);
    let mut table = [TOO_HEAVY; SETS];
    table[0] = 0;
    fill(hits, costs, full, &mut table);
    choose(hits, costs, &table, full)
}
