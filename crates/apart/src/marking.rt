// The rows that keep what the views of a partition show of the odd row.

ghost use Rattle.std.specs.Prelude.{◌≡◌, ◌<◌, ◌≤◌, length};
ghost use Rattle.model.specs.Limits.{most_lines, most_views, most_partitions};
ghost use Rattle.covering.specs.Prepared.{prepared_long};
ghost use Rattle.freezing.specs.Blocks.{last_base};
ghost use Rattle.apart.specs.Buffer.{Wide, HasCells};
ghost use Rattle.apart.specs.Marking.{SomeMarking, ViewPut, MarkedPut};

use crate::buffer::{put_row, stands};
use covering::Prepared;
use freezing::Cells;

// The marked row of the view at place k, if the view matches the odd row, behind `count` rows, of which those from `from` on are
// marked; a row that stands there already is not written. How many rows there are then.
fn put_view(
    base: u64,
    ready: &Prepared,
    k: usize,
    odd: Cells,
    from: usize,
    count: usize,
    out: &mut [u64],
) -> usize
    requires base_le_last_base { (base ≤ last_base) × (length ready.now ≡ prepared_long) × (k < most_views) }
    requires from_le_count { (from ≤ count) × HasCells out.old count }
    ensures { ViewPut base ready.now k odd from count out.old out.new result }
{
    if !freezing::matches(ready, k, odd) {
        return count;
    }
    let cells = freezing::marked_row(base, ready, k, odd);
    if stands(out, from, count, cells) {
        return count;
    }
    put_row(out, count, cells);
    count + 1
}

// The marked rows of the views of the odd row's table that the partition at place i, counted from 0, grants, behind `from` rows. How
// many rows there are then.
pub fn put_marked(
    base: u64,
    ready: &Prepared,
    i: u64,
    odd: Cells,
    from: usize,
    out: &mut [u64],
) -> usize
    requires base_le_last_base { (base ≤ last_base) × SomeMarking ready.now odd × (i < most_partitions) }
    requires from_le_most_lines { (from ≤ most_lines) × Wide out.old }
    ensures { MarkedPut base ready.now i odd from out.old out.new result }
{
    let mut count = from;
    let mut left = covering::views_of(ready, odd[0]);
    while left != 0 {
        let k = words::least(left);
        if words::has_bit(covering::granting(ready, k), i) {
            count = put_view(base, ready, k as usize, odd, from, count, out);
        }
        left = words::drop_least(left);
    }
    count
}
