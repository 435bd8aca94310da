// Whether a policy value is one that some text loads to.

#![tactic(auto)]

ghost use Rattle.std.specs.Prelude.{◌≡◌, ◌↔◌, true, List, ℕ, ◌≤◌};
ghost use Rattle.model.specs.Limits.{most_tables, most_views, most_partitions};
ghost use Rattle.model.specs.Value.{unused_term};
ghost use Rattle.validity.specs.Loadable.{Loadable};
ghost use Rattle.validity.specs.Parts.{WidthPlace, TablesOf, ViewPlace, ViewsHeld, GrantPlace, PartitionsHeld};
ghost use Rattle.validity.specs.Entries.{WidthFor, TermsFor, Entering};

use model::{
    HIDDEN, Line, MOST_COLUMNS, MOST_PARTITIONS, MOST_TABLES, MOST_VIEWS, Policy, SHOWN, Tables,
    Term, UNUSED,
};

pub fn valid(p: Policy) -> bool
    ensures { (result ≡ true) ↔ Loadable p }
{
    let t = p.tables;
    if !valid_tables(t) {
        return false;
    }
    if !valid_views(p) {
        return false;
    }
    let grants = p.grants;
    valid_grants(p.view_count, p.partition_count, grants)
}

// From 1 to the most.
fn counted(n: usize, most: usize) -> bool
    ensures { (result ≡ true) ↔ ((1 ≤ n) × (n ≤ most)) }
{
    (1..=most).contains(&n)
}

// ---- tables

fn valid_tables(t: Tables) -> bool
    ensures { (result ≡ true) ↔ ((widths : List ℕ) × TablesOf widths t) }
{
    counted(t.count, MOST_TABLES)
        && t.columns
            .iter()
            .enumerate()
            .all(|(i, w)| valid_width(i < t.count, *w))
}

// A table's columns, or 0 behind the last table.
fn valid_width(used: bool, w: u64) -> bool
    ensures { (result ≡ true) ↔ WidthPlace used w }
{
    if used {
        return (1..=MOST_COLUMNS as u64).contains(&w);
    }
    w == 0
}

// ---- views

// How many marks there are, the unused one among them.
const MARKS: usize = 4;

// The width that stands for a wrong table.
const WRONG_WIDTH: u64 = MOST_COLUMNS as u64 + 1;

fn valid_views(p: Policy) -> bool
    requires { p.tables.count ≤ most_tables }
    ensures { (widths : List ℕ) → TablesOf widths p.tables → (result ≡ true) ↔ ViewsHeld widths p.view_count p.views }
{
    let t = &p.tables;
    counted(p.view_count, MOST_VIEWS)
        && p.views.iter().enumerate().all(|(i, l)| valid_view(
            i < p.view_count,
            t.count,
            &t.columns,
            *l,
        ))
}

// A view, or an unused line behind the last: a line of no table with no columns used.
fn valid_view(used: bool, count: usize, columns: &[u64; MOST_TABLES], l: Line) -> bool
    requires { count ≤ most_tables }
    ensures { (widths : List ℕ) → TablesOf widths (record { count = count; columns = columns.now })
        → (result ≡ true) ↔ ViewPlace widths used l }
{
    let w = width_for(used, count, columns, l.table);
    if (MOST_COLUMNS as u64) < w {
        return false;
    }
    valid_terms(w, l)
}

// The columns of a line's table; none behind the last view, where there must be no table.
fn width_for(used: bool, count: usize, columns: &[u64; MOST_TABLES], table: u64) -> u64
    requires { count ≤ most_tables }
    ensures { WidthFor count columns.now table used result }
{
    if !used {
        if table == 0 {
            return 0;
        }
        return WRONG_WIDTH;
    }
    if table == 0 {
        return WRONG_WIDTH;
    }
    let at = (table - 1) as usize;
    if count <= at {
        return WRONG_WIDTH;
    }
    columns[at]
}

// A used term with no mark is found out once the columns are done: its number stands in the word of the unused mark.
fn valid_terms(w: u64, l: Line) -> bool
    ensures { (result ≡ true) ↔ TermsFor w l.terms }
{
    let mut by: [u64; MARKS] = [0; MARKS];
    for (i, t) in l.terms.iter().enumerate() {
        if !enter_term((i as u64) < w, *t, &mut by) {
            return false;
        }
    }
    if by[UNUSED as usize] != 0 {
        return false;
    }
    !words::meets(by[SHOWN as usize], by[HIDDEN as usize])
}

// A used term, entered under its mark, or an unused one behind the columns.
fn enter_term(used: bool, t: Term, by: &mut [u64; MARKS]) -> bool
    ensures { Entering used t by.old by.new result }
{
    if used {
        return enter_used(t, by);
    }
    unused_term(t)
}

fn enter_used(t: Term, by: &mut [u64; MARKS]) -> bool
    ensures { Entering true t by.old by.new result }
{
    if HIDDEN < t.mark {
        return false;
    }
    if !model::within(t.mark, t.number) {
        return false;
    }
    let m = t.mark as usize;
    by[m] = words::set_bit(by[m], t.number % words::BITS);
    true
}

// Both numbers are 0 where their bits joined are.
fn unused_term(t: Term) -> bool
    ensures { (result ≡ true) ↔ (t ≡ unused_term) }
{
    (t.mark | t.number) == 0
}

// ---- partitions

// The words of the views that n partitions grant.
fn valid_grants(views: usize, n: usize, grants: [u64; MOST_VIEWS]) -> bool
    requires { views ≤ most_views }
    ensures { (result ≡ true) ↔ PartitionsHeld views n grants }
{
    counted(n, MOST_PARTITIONS)
        && grants
            .iter()
            .enumerate()
            .all(|(k, g)| valid_grant(k < views, n, *g))
}

// A word with no bit past the partitions, or 0 behind the last view.
fn valid_grant(used: bool, n: usize, g: u64) -> bool
    requires { n ≤ most_partitions }
    ensures { (result ≡ true) ↔ GrantPlace n used g }
{
    if used {
        return (g >> n) == 0;
    }
    g == 0
}
