// The next query of an input, decided.

ghost use Rattle.std.specs.Prelude.{◌≡◌, ◌≤◌, ◌<◌, length};
ghost use Rattle.model.specs.Rows.{query_rows_long};
ghost use Rattle.labelling.specs.Posed.{SomeReady};
ghost use Rattle.run.specs.Sizes.{most_input};
ghost use Rattle.run.specs.Next.{NextDecided};

use covering::Prepared;
use desk::{Decision, Session};
use model::{QueryRows, Tables};

// The decision on the first query text of an input, and the place behind that text.
#[derive(Clone, Copy)]
pub struct NextDecision {
    pub decision: Decision,
    pub end: usize,
}

// Read in one pass where the text is as expected; else cut and read line by line, which tells what turns it back.
pub fn decide_next(
    tables: Tables,
    ready: &Prepared,
    s: Session,
    input: &[u8],
    lines: &mut QueryRows,
) -> NextDecision
    requires { SomeReady tables ready.now × (0 < length input.now) × (length input.now ≤ most_input)
        × (length lines.old ≡ query_rows_long) }
    ensures next_decided { NextDecided tables ready.now s input.now result }
    ensures lines_len { length lines.new ≡ query_rows_long }
{
    let Some(p) = scan::first_query(covering::widths(ready), input, lines) else {
        let n = cutting::next_cut(input);
        let decision = desk::decide_loaded(tables, ready, s, &input[..n]);
        return NextDecision { decision, end: n };
    };
    let q = p.query;
    let decision = desk::decide_rows(ready, s, q.count, lines);
    NextDecision {
        decision,
        end: p.end,
    }
}
