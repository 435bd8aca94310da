// The labels of a query, and which partitions settle it.

#![tactic(auto)]

ghost use Rattle.std.specs.Prelude.{◌≡◌, ◌-◌, ◌<◌, length};
ghost use Rattle.model.specs.Rows.{query_rows_long};
ghost use Rattle.query_text.specs.Text.{read};
ghost use Rattle.policy_text.specs.Declared.{Declared};
ghost use Rattle.labelling.specs.Posed.{Ready, SomeReady};
ghost use Rattle.labelling.specs.Posed.{SomeQueryRows, RowsShown};
ghost use Rattle.labelling.specs.Posed.{SomeRows, RowsGiven, SomePosedRows, PosedRowsGiven, SomePosed, QueryGiven};
ghost use Rattle.labelling.specs.Text.{LoadedTo, SomePolicy, asked_value};

use covering::Prepared;
use entering::LINE_WORDS;
use model::{MOST_LINES, Policy, Query, QueryRows, Refusal, Tables};
use word_list::Words;

// One word for each line of the reduced query, in the order of its lines, and the partitions that settle it, partition n at bit n - 1.
#[derive(Clone, Copy)]
pub struct Labels {
    pub words: Words,
    pub settling: u64,
}

// The labels of the lines left of n lines, whose shared variables are shown.
fn label_lines(ready: &Prepared, n: usize, lines: &QueryRows, left: u64) -> Labels
    requires { SomeRows ready.now n lines.now × (length lines.now ≡ query_rows_long) }
    ensures { RowsGiven ready.now n lines.now left result }
{
    let mut words = [0; MOST_LINES];
    let mut count = 0;
    let mut settling = covering::every_partition(ready);
    for i in 0..n {
        if words::has_bit(left, i as u64) {
            let l = covering::label_line(ready, lines, i);
            words[count] = l.label;
            settling = settling & l.grants;
            count += 1;
        }
    }
    let words = Words { count, words };
    Labels { words, settling }
}

// Which of n lines that are laid in rows are left when the query is reduced, as bits; the variables that these share are shown.
pub fn shown_rows(n: usize, lines: &mut QueryRows) -> u64
    requires { SomeQueryRows n lines.old × (length lines.old ≡ query_rows_long) }
    ensures rows_shown { RowsShown n lines.old result lines.new }
    ensures lines_len { length lines.new ≡ query_rows_long }
{
    let mut words = [0; MOST_LINES * LINE_WORDS];
    entering::enter_query(n, lines, &mut words);
    let left = reduce::lines_left(n, lines, &words);
    let shared = entering::shared(n, &words, left);
    entering::show(n, lines, shared);
    left
}

// The labels of a query of n lines that is laid in rows; its shared variables are shown there.
pub fn label_rows(ready: &Prepared, n: usize, lines: &mut QueryRows) -> Labels
    requires { SomePosedRows ready.now n lines.old × (length lines.old ≡ query_rows_long) }
    ensures posed_rows_given { PosedRowsGiven ready.now n lines.old result }
    ensures lines_len { length lines.new ≡ query_rows_long }
{
    let left = shown_rows(n, lines);
    label_lines(ready, n, lines, left)
}

// The labels of a query.
pub fn label_query(ready: &Prepared, q: Query) -> Labels
    requires { SomePosed ready.now q }
    ensures { QueryGiven ready.now q result }
{
    let mut lines = entering::query_rows(q);
    label_rows(ready, q.count, &mut lines)
}

// The labels of a query text, or what turns it back.
pub fn label_text(tables: Tables, ready: &Prepared, text: &[u8]) -> Result<Labels, Refusal>
    requires { SomeReady tables ready.now }
    ensures { (d : Declared) → Ready d tables ready.now → result ≡ asked_value d (read d.widths text.now) }
{
    let q = query_text::read_query(tables, text)?;
    Ok(label_query(ready, q))
}

// The same under a loaded policy, of which nothing is made yet.
pub fn ask(p: Policy, text: &[u8]) -> Result<Labels, Refusal>
    requires { SomePolicy p }
    ensures { (d : Declared) → LoadedTo p d → result ≡ asked_value d (read d.widths text.now) }
{
    let ready = covering::prepare(p);
    let tables = p.tables;
    label_text(tables, &ready, text)
}
