// Two archives for a query and a partition that does not settle it.

ghost use Rattle.std.specs.Prelude.{◌≡◌, length};
ghost use Rattle.model.specs.Rows.{query_rows_long};
ghost use Rattle.apart.specs.Archives.{ArchivesGiven};
ghost use Rattle.apart.specs.Buffer.{Wide};
ghost use Rattle.apart.specs.Telling.{SomeAsked, AskedTold};

use crate::unsettled::unsettled_line;
use crate::writing::put_archives;
use covering::Prepared;
use freezing::ROW_CELLS;
use model::{MOST_LINES, Policy, QueryRows, Refusal};

// "eight lines and one row for each of at most 32 views": of the odd row's table, so of one table
const TABLE_VIEWS: usize = 32;

// "under 360 numbers": room for these rows
pub const MOST_CELLS: usize = (MOST_LINES + TABLE_VIEWS) * ROW_CELLS;

// The partition settles the query, or so many rows tell it apart.
#[derive(Clone, Copy)]
pub enum Telling {
    Settled,
    Apart { rows: usize },
}

// The same of a query of n lines that is laid in rows, and the partition at place i, counted from 0.
fn tell_rows(ready: &Prepared, i: u64, n: usize, lines: &mut QueryRows, out: &mut [u64]) -> Telling
    requires { SomeAsked ready.now i n lines.old × (length lines.old ≡ query_rows_long) × Wide out.old }
    ensures { AskedTold ready.now i n lines.old out.old (Ok result) out.new }
{
    let left = labelling::shown_rows(n, lines);
    let Some(line) = unsettled_line(ready, i, n, lines, left) else {
        return Telling::Settled;
    };
    let rows = put_archives(ready, i, n, lines, left, line, out);
    Telling::Apart { rows }
}

// Rows on which the views of partition n agree whether the first row is there or not, and the query does not; cells past them stay.
pub fn tell_apart(p: Policy, n: u64, text: &[u8], out: &mut [u64]) -> Result<Telling, Refusal>
    ensures { ArchivesGiven p n text.now out.old result out.new }
{
    if !validity::valid(p) {
        return Err(Refusal { number: 8, line: 0 });
    }
    if !model::is_among(n, p.partition_count as u64) {
        return Err(Refusal { number: 4, line: 0 });
    }
    let q = query_text::read_query(p.tables, text)?;
    if out.len() < MOST_CELLS {
        return Err(Refusal {
            number: 10,
            line: 0,
        });
    }
    let ready = covering::prepare(p);
    let mut lines = entering::query_rows(q);
    Ok(tell_rows(&ready, n - 1, q.count, &mut lines, out))
}
