// What a line of values declares, behind what is declared so far.

ghost use Rattle.std.specs.Prelude.{◌≡◌, ◌<◌, ◌^◌, length};
ghost use Rattle.model.specs.Limits.{most_tables, most_views, most_partitions};
ghost use Rattle.policy_text.specs.Text.{tables as table_block, views as view_block, partitions as partition_block};
ghost use Rattle.load.specs.Steps.{ViewTabled, Numbering};
ghost use Rattle.load.specs.Entering.{FaultOfTable, FaultOfView, FaultOfPartition, Entering};
ghost use Rattle.load.specs.Entering.{WithTable, WithView, WithPartition, Granting};

use model::{Line, MOST_VIEWS, Parsed, Policy, Tables};
use policy_lines::{PartitionLine, TableLine, ViewLine, read_partition, read_table, read_view};

// The number that turns the line back, or 0; and what is declared with the line, or without it where it is turned back.
#[derive(Clone, Copy)]
pub struct Entered {
    pub fault: u64,
    pub policy: Policy,
}

fn table_fault(tables: Tables, t: TableLine) -> u64
    requires { Numbering most_tables t.ok t.outside t.number }
    ensures fault_of_table { FaultOfTable tables t result }
    ensures count_lt_most_tables { result ≡ 0 → tables.count < most_tables }
{
    if !t.ok {
        return 1;
    }
    if t.outside {
        return 2;
    }
    if t.number as usize - 1 != tables.count {
        return 3;
    }
    0
}

fn with_table(p: Policy, columns: u64) -> Policy
    requires { p.tables.count < most_tables }
    ensures { WithTable p columns result }
{
    let mut r = p;
    let mut t = p.tables;
    let at = t.count;
    t.columns[at] = columns;
    t.count = at + 1;
    r.tables = t;
    r
}

pub fn enter_table(p: Policy, line: &[u8]) -> Entered
    ensures { Entering table_block p line.now result }
{
    let t = read_table(line);
    let tables = p.tables;
    let fault = table_fault(tables, t);
    if fault != 0 {
        return Entered { fault, policy: p };
    }
    let r = with_table(p, t.columns);
    Entered {
        fault: 0,
        policy: r,
    }
}

// The checks of a view's line against the tables and the number of views so far.
fn view_fault(tables: Tables, views: usize, e: ViewLine) -> u64
    requires { Numbering most_views e.ok e.outside e.number × ViewTabled e.ok e.outside e.view }
    ensures fault_of_view { FaultOfView tables views e result }
    ensures views_lt_most_views { result ≡ 0 → views < most_views }
{
    if !e.ok {
        return 1;
    }
    if e.outside {
        return 2;
    }
    if e.number as usize - 1 != views {
        return 3;
    }
    let v = e.view;
    model::check_line(tables, 0, 0, v)
}

fn with_view(p: Policy, v: Parsed) -> Policy
    requires { p.view_count < most_views }
    ensures { WithView p v result }
{
    let mut r = p;
    let terms = v.terms;
    let at = p.view_count;
    r.views[at] = Line {
        table: v.table,
        terms,
    };
    r.view_count = at + 1;
    r
}

pub fn enter_view(p: Policy, line: &[u8]) -> Entered
    requires { length line.now < 2 ^ 32 }
    ensures { Entering view_block p line.now result }
{
    let e = read_view(line);
    let tables = p.tables;
    let fault = view_fault(tables, p.view_count, e);
    if fault != 0 {
        return Entered { fault, policy: p };
    }
    let v = e.view;
    let r = with_view(p, v);
    Entered {
        fault: 0,
        policy: r,
    }
}

// The checks of a partition's line against the numbers of views and of partitions so far.
fn partition_fault(views: usize, partitions: usize, e: PartitionLine) -> u64
    requires { Numbering most_partitions e.ok e.outside e.number }
    ensures fault_of_partition { FaultOfPartition views partitions e result }
    ensures partitions_lt_most_partitions { result ≡ 0 → partitions < most_partitions }
{
    if !e.ok {
        return 1;
    }
    if e.outside {
        return 2;
    }
    if e.number as usize - 1 != partitions {
        return 3;
    }
    let l = e.listed;
    if !l.ascending {
        return 3;
    }
    if views < l.last as usize {
        return 4;
    }
    0
}

// The words of the views with partition `i`, counted from 0, in those that it grants: the views of a word.
fn granting(grants: [u64; MOST_VIEWS], views: u64, i: u64) -> [u64; MOST_VIEWS]
    requires { i < most_partitions }
    ensures { Granting grants views i result }
{
    let mut r = grants;
    for (k, g) in r.iter_mut().enumerate() {
        *g = words::set_bit_if(*g, i, words::has_bit(views, k as u64));
    }
    r
}

fn with_partition(p: Policy, views: u64) -> Policy
    requires { p.partition_count < most_partitions }
    ensures { WithPartition p views result }
{
    let mut r = p;
    let at = p.partition_count;
    let grants = p.grants;
    let granted = granting(grants, views, at as u64);
    r.grants = granted;
    r.partition_count = at + 1;
    r
}

pub fn enter_partition(p: Policy, line: &[u8]) -> Entered
    requires { length line.now < 2 ^ 32 }
    ensures { Entering partition_block p line.now result }
{
    let e = read_partition(line);
    let fault = partition_fault(p.view_count, p.partition_count, e);
    if fault != 0 {
        return Entered { fault, policy: p };
    }
    let l = e.listed;
    let r = with_partition(p, l.views);
    Entered {
        fault: 0,
        policy: r,
    }
}
