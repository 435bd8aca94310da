// The fields of a policy's lines. The three functions that read one are never inlined: laid open in the loop of loading, they keep the compiler
// from seeing that what a line is entered into is written whole, and it clears room for a policy once more or twice for every line.

#![tactic(auto)]

ghost use Rattle.std.specs.Prelude.{◌≡◌, List, [], ◌∷◌, ◌++◌, ℕ, ◌+◌, ◌^◌, ◌<◌, ◌≤◌, length};
ghost use Rattle.text.specs.Lines.{space, fields, parts_from};
ghost use Rattle.text.specs.Numeral.{numeral};
ghost use Rattle.model.specs.Limits.{most_views};
ghost use Rattle.model.specs.Fields.{every, table_line, view_line, partition_line};
ghost use Rattle.policy_lines.specs.Value.{no_table, table_value, no_view, view_value};
ghost use Rattle.policy_lines.specs.Value.{no_views, view_list, view_list_value, no_partition, partition_value};

use model::{MOST_COLUMNS, MOST_PARTITIONS, MOST_TABLES, MOST_VIEWS, Parsed};
use text::Numeral;

// A table's line: its number and columns.
#[derive(Clone, Copy)]
pub struct TableLine {
    pub ok: bool,
    pub outside: bool,
    pub number: u64,
    pub columns: u64,
}

// A view's line: its number and the line that it is.
#[derive(Clone, Copy)]
pub struct ViewLine {
    pub ok: bool,
    pub outside: bool,
    pub number: u64,
    pub view: Parsed,
}

// The views of a partition, view n at bit n - 1, whether they ascend strictly, and the last.
#[derive(Clone, Copy)]
pub struct ViewList {
    pub ok: bool,
    pub outside: bool,
    pub ascending: bool,
    pub views: u64,
    pub last: u64,
}

// A partition's line: its number and views.
#[derive(Clone, Copy)]
pub struct PartitionLine {
    pub ok: bool,
    pub outside: bool,
    pub number: u64,
    pub listed: ViewList,
}

fn no_table(ok: bool) -> TableLine
    ensures { result ≡ no_table ok }
{
    TableLine {
        ok,
        outside: ok,
        number: 0,
        columns: 0,
    }
}

// A table's line.
#[inline(never)]
pub fn read_table(line: &[u8]) -> TableLine
    ensures { result ≡ table_value (table_line line.now) }
{
    let n = text::first(line, b' ');
    if n == line.len() {
        return no_table(false);
    }
    let number = text::read_numeral(&line[..n]);
    if let Numeral::Malformed = number {
        return no_table(false);
    }
    let from = n + 1;
    let columns = text::read_numeral(&line[from..]);
    if let Numeral::Malformed = columns {
        return no_table(false);
    }
    let t = model::up_to(number, MOST_TABLES as u64);
    if t == 0 {
        return no_table(true);
    }
    let w = model::up_to(columns, MOST_COLUMNS as u64);
    if w == 0 {
        return no_table(true);
    }
    TableLine {
        ok: true,
        outside: false,
        number: t,
        columns: w,
    }
}

fn no_view(ok: bool) -> ViewLine
    ensures { result ≡ no_view ok }
{
    ViewLine {
        ok,
        outside: ok,
        number: 0,
        view: model::blank(ok, ok),
    }
}

// A view's line.
#[inline(never)]
pub fn read_view(line: &[u8]) -> ViewLine
    requires { length line.now < 2 ^ 32 }
    ensures { result ≡ view_value (view_line line.now) }
{
    let n = text::first(line, b' ');
    if n == line.len() {
        return no_view(false);
    }
    let number = text::read_numeral(&line[..n]);
    if let Numeral::Malformed = number {
        return no_view(false);
    }
    let from = n + 1;
    let view = model::read_line(&line[from..]);
    if !view.ok {
        return no_view(false);
    }
    if view.outside {
        return no_view(true);
    }
    let k = model::up_to(number, MOST_VIEWS as u64);
    if k == 0 {
        return no_view(true);
    }
    ViewLine {
        ok: true,
        outside: false,
        number: k,
        view,
    }
}

fn no_views(ok: bool) -> ViewList
    ensures { result ≡ no_views ok }
{
    ViewList {
        ok,
        outside: ok,
        ascending: false,
        views: 0,
        last: 0,
    }
}

fn none_listed() -> ViewList
    ensures { result ≡ view_list [] }
{
    ViewList {
        ok: true,
        outside: false,
        ascending: true,
        views: 0,
        last: 0,
    }
}

// The views with one more behind them.
fn with_view(l: ViewList, v: u64) -> ViewList
    requires { (1 ≤ v) × (v ≤ most_views) }
    ensures { (vs : List ℕ) → l ≡ view_list vs → result ≡ view_list (vs ++ v ∷ []) }
{
    let mut ascending = l.ascending;
    if v <= l.last {
        ascending = false;
    }
    ViewList {
        ok: l.ok,
        outside: l.outside,
        ascending,
        views: words::set_bit(l.views, v - 1),
        last: v,
    }
}

// The views that a partition lists.
fn read_views(s: &[u8]) -> ViewList
    requires { length s.now < 2 ^ 32 }
    ensures { result ≡ view_list_value (every numeral (fields s.now)) }
{
    let mut l = none_listed();
    let mut outside = false;
    for field in s.split(|b| *b == b' ') {
        let number = text::read_numeral(field);
        if let Numeral::Malformed = number {
            return no_views(false);
        }
        let v = model::up_to(number, MOST_VIEWS as u64);
        if v == 0 {
            outside = true;
        } else {
            l = with_view(l, v);
        }
    }
    if outside {
        return no_views(true);
    }
    l
}

fn no_partition(ok: bool) -> PartitionLine
    ensures { result ≡ no_partition ok }
{
    PartitionLine {
        ok,
        outside: ok,
        number: 0,
        listed: no_views(ok),
    }
}

// The views behind a partition's number, which ends at `n`.
fn listed_after(line: &[u8], n: usize) -> ViewList
    requires { length line.now < 2 ^ 32 }
    ensures { result ≡ view_list_value (every numeral (parts_from space line.now (n + 1))) }
{
    if n < line.len() {
        let from = n + 1;
        return read_views(&line[from..]);
    }
    none_listed()
}

// A partition's line.
#[inline(never)]
pub fn read_partition(line: &[u8]) -> PartitionLine
    requires { length line.now < 2 ^ 32 }
    ensures { result ≡ partition_value (partition_line line.now) }
{
    let n = text::first(line, b' ');
    let number = text::read_numeral(&line[..n]);
    if let Numeral::Malformed = number {
        return no_partition(false);
    }
    let listed = listed_after(line, n);
    if !listed.ok {
        return no_partition(false);
    }
    if listed.outside {
        return no_partition(true);
    }
    let k = model::up_to(number, MOST_PARTITIONS as u64);
    if k == 0 {
        return no_partition(true);
    }
    PartitionLine {
        ok: true,
        outside: false,
        number: k,
        listed,
    }
}
