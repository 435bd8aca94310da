// Reading a query text under a policy's tables.

#![tactic(auto)]

ghost use Rattle.std.specs.Prelude.{◌≡◌, false, List, [], ℕ, ◌<◌, ◌^◌, length};
ghost use Rattle.model.specs.Value.{query_value, tables_value};
ghost use Rattle.model.specs.Limits.{most_lines};
ghost use Rattle.query_text.specs.Text.{refused as refusedReading, read};
ghost use Rattle.query_text.specs.Value.{reading_value, LinesRead, LineTabled, FaultBehind};

use model::{Line, MOST_COLUMNS, MOST_LINES, Parsed, Query, Refusal, Tables, Term};

// The most bytes of a query text.
const MOST_BYTES: usize = 4096;

// A query without a line.
pub fn no_query() -> Query
    ensures { result ≡ query_value [] }
{
    let unused = Line {
        table: 0,
        terms: [Term { mark: 0, number: 0 }; MOST_COLUMNS],
    };
    Query {
        count: 0,
        lines: [unused; MOST_LINES],
    }
}

fn refused(number: u64, line: u64) -> Result<Query, Refusal>
    ensures { result ≡ reading_value (refusedReading number line) }
{
    Err(Refusal { number, line })
}

// What turns a line back that is well formed and stands behind `count` lines, whose shown and hidden variables are these
// bits; or 0.
fn fault(tables: Tables, count: usize, shown: u64, hidden: u64, p: Parsed) -> u64
    requires { LineTabled p }
    ensures fault_behind { FaultBehind tables count shown hidden p result }
    ensures count_lt_most_lines { result ≡ 0 → (count < most_lines) × (p.outside ≡ false) }
{
    if MOST_LINES <= count {
        return 7;
    }
    if p.outside {
        return 2;
    }
    model::check_line(tables, shown, hidden, p)
}

// The lines of values, all of a text whose first line has the number `start`.
fn read_lines(tables: Tables, text: &[u8], start: u64) -> Result<Query, Refusal>
    requires { (length text.now < 2 ^ 32) × (start < 2 ^ 32) }
    ensures { LinesRead tables text.now start result }
{
    let mut q = no_query();
    let mut shown: u64 = 0;
    let mut hidden: u64 = 0;
    let mut line = start;
    let mut at = 0;
    while at < text.len() {
        let rest = &text[at..];
        let next = text::next_line(rest, line);
        if rest.len() < next.at {
            return refused(1, line);
        }
        let p = model::read_line(&rest[..next.at - 1]);
        if !p.ok {
            return refused(1, line);
        }
        let count = q.count;
        let f = fault(tables, count, shown, hidden, p);
        if f != 0 {
            return refused(f, line);
        }
        let table = p.table;
        let terms = p.terms;
        q.lines[count] = Line { table, terms };
        q.count = count + 1;
        shown = shown | p.shown;
        hidden = hidden | p.hidden;
        line = next.line;
        at = at + next.at;
    }
    if q.count == 0 {
        return refused(1, line);
    }
    Ok(q)
}

// The query of a text, or the number that turns it back and the line.
pub fn read_query(tables: Tables, text: &[u8]) -> Result<Query, Refusal>
    ensures { (widths : List ℕ) → tables ≡ tables_value widths → result ≡ reading_value (read widths text.now) }
{
    if MOST_BYTES < text.len() {
        return refused(7, 0);
    }
    let start = text::after_names(text, &text::TABLE_TERMS);
    if start.at == 0 {
        return refused(1, 1);
    }
    let from = start.at;
    read_lines(tables, &text[from..], start.line)
}
