// The first query text of an input, read in one pass from its bytes to the rows of its lines. Whatever is not expected ends the pass
// without a query: the input has then to be cut and read line by line, which tells what turns the text back.

#![tactic(auto)]

mod numbers;
mod terms;

ghost use Rattle.std.specs.Prelude.{◌≡◌, ◌^◌, ◌<◌, length};
ghost use Rattle.model.specs.Limits.{most_tables};
ghost use Rattle.model.specs.Rows.{query_rows_long};
ghost use Rattle.scan.specs.Places.{PlaceIn, NamesAt, WidthOf, TextEnd};
ghost use Rattle.scan.specs.Scanned.{SomeWidths, ScannedUnder};

use model::{Line, MOST_LINES, MOST_TABLES, Query};
use numbers::table_at;
use terms::terms_at;

// How many bytes the names line of a query has, with its end and without.
const NAMES: usize = NAMES_END + 1;

const NAMES_END: usize = 11;

// A query, and the place behind its text.
#[derive(Clone, Copy)]
pub struct Piece {
    pub query: Query,
    pub end: usize,
}

// Whether the names line of a query stands at a place.
fn names_at(text: &[u8], at: usize) -> bool
    requires { PlaceIn text.now at }
    ensures { NamesAt text.now at result }
{
    if text.len() < at + NAMES {
        return false;
    }
    if text[at + NAMES_END] != b'\n' {
        return false;
    }
    let rest = &text[at..];
    text::same(&rest[..NAMES_END], &text::TABLE_TERMS)
}

// The columns of a table that there may be.
fn width_of(widths: &[u64], table: u64) -> Option<usize>
    requires { most_tables < length widths.now }
    ensures { WidthOf widths.now table result }
{
    if (MOST_TABLES as u64) < table {
        return None;
    }
    let width = widths[table as usize] as usize;
    if width == 0 {
        return None;
    }
    Some(width)
}

// The place behind the text of a query with so many lines and these variables; none where it has no line, or a variable with both marks.
fn text_end(count: usize, shown: u64, hidden: u64, at: usize) -> Option<usize>
    ensures { TextEnd count shown hidden at result }
{
    if count == 0 {
        return None;
    }
    if words::meets(shown, hidden) {
        return None;
    }
    Some(at)
}

// The first query of an input and its lines in rows, line i in row i. The columns of table t stand at place t of `widths`, 0 where
// there is no such table.
pub fn first_query(widths: &[u64], input: &[u8], rows: &mut [u64]) -> Option<Piece>
    requires { SomeWidths widths.now × (length input.now < 2 ^ 32) × (length rows.old ≡ query_rows_long) }
    ensures scanned_under { ScannedUnder widths.now input.now result rows.new }
    ensures rows_len { length rows.new ≡ query_rows_long }
{
    let mut q = query_text::no_query();
    if !names_at(input, 0) {
        return None;
    }
    let mut shown = 0;
    let mut hidden = 0;
    let mut at = NAMES;
    // no `for`: a line has as many bytes as its terms take, and the next starts behind it
    while at < input.len() {
        if names_at(input, at) {
            break;
        }
        let count = q.count;
        if count == MOST_LINES {
            return None;
        }
        let t = table_at(input, at)?;
        let table = t.value;
        let width = width_of(widths, table)?;
        let r = terms_at(input, t.end, width)?;
        let terms = r.terms;
        q.lines[count] = Line { table, terms };
        let l = q.lines[count];
        model::lay_line(l, count, rows);
        q.count = count + 1;
        shown = shown | r.shown;
        hidden = hidden | r.hidden;
        at = r.end;
    }
    let end = text_end(q.count, shown, hidden, at)?;
    Some(Piece { query: q, end })
}
