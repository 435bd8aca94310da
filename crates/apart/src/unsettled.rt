// A line that a partition has no view for.

ghost use Rattle.std.specs.Prelude.{◌≡◌, ◌<◌, length};
ghost use Rattle.model.specs.Limits.{most_partitions};
ghost use Rattle.model.specs.Rows.{query_rows_long};
ghost use Rattle.labelling.specs.Posed.{SomeRows};
ghost use Rattle.apart.specs.Unsettled.{UnsettledFound};

use covering::Prepared;
use model::QueryRows;

// The first of the lines left of n lines for which the partition at place i, counted from 0, has no view; none where it has one for each.
pub fn unsettled_line(
    ready: &Prepared,
    i: u64,
    n: usize,
    lines: &QueryRows,
    left: u64,
) -> Option<usize>
    requires { SomeRows ready.now n lines.now × (length lines.now ≡ query_rows_long) × (i < most_partitions) }
    ensures { UnsettledFound ready.now i n lines.now left result }
{
    for k in 0..n {
        if words::has_bit(left, k as u64) {
            let l = covering::label_line(ready, lines, k);
            if !words::has_bit(l.grants, i) {
                return Some(k);
            }
        }
    }
    None
}
