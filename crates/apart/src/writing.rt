// The rows of both archives: the odd row, the other lines of the reduced query, and the marked rows.

ghost use Rattle.std.specs.Prelude.{◌≡◌, ◌≤◌, length};
ghost use Rattle.model.specs.Rows.{query_rows_long};
ghost use Rattle.freezing.specs.Blocks.{last_base};
ghost use Rattle.apart.specs.Buffer.{Wide};
ghost use Rattle.apart.specs.Writing.{SomeLines, LinesPut, SomeOdd, ArchivesPut};

use crate::buffer::put_row;
use crate::marking::put_marked;
use covering::Prepared;
use model::QueryRows;

// The lines of a word, of n lines, each as a row, behind the one row that is there. How many rows there are then.
fn put_lines(base: u64, n: usize, lines: &QueryRows, others: u64, out: &mut [u64]) -> usize
    requires { (base ≤ last_base) × SomeLines n lines.now × (length lines.now ≡ query_rows_long) × Wide out.old }
    ensures { LinesPut base n lines.now others out.old out.new result }
{
    let mut count = 1;
    for k in 0..n {
        if words::has_bit(others, k as u64) {
            let cells = freezing::frozen_row(base, lines, k);
            put_row(out, count, cells);
            count += 1;
        }
    }
    count
}

// The rows for a line of those left that the partition at place i, counted from 0, has no view for. How many there are.
pub fn put_archives(
    ready: &Prepared,
    i: u64,
    n: usize,
    lines: &QueryRows,
    left: u64,
    line: usize,
    out: &mut [u64],
) -> usize
    requires { SomeOdd ready.now i n lines.now left line × (length lines.now ≡ query_rows_long) × Wide out.old }
    ensures { ArchivesPut ready.now i n lines.now left line out.old out.new result }
{
    let base = freezing::spare_block(ready, lines);
    let odd = freezing::frozen_row(base, lines, line);
    put_row(out, 0, odd);
    let others = words::clear_bit(left, line as u64);
    let from = put_lines(base, n, lines, others, out);
    put_marked(base, ready, i, odd, from, out)
}
