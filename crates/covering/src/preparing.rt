// What is made of a policy once, as numbers that are lent: the views as rows, view n in row n - 1; behind them the views of each
// table as a word; then for each view the partitions that grant it; the word of every partition; the columns of each table; and at the
// end for each view those of its columns that are known to be free.

ghost use Rattle.std.specs.Prelude.{◌≡◌, true, ◌≤◌, ◌<◌, length, get_or, drop};
ghost use Rattle.model.specs.Limits.{most_tables, most_columns, most_views, most_partitions};
ghost use Rattle.model.specs.Rows.{HasRow};
ghost use Rattle.covering.specs.Prepared.{every_word, width_words, prepared_long, table_word, grant_word};
ghost use Rattle.covering.specs.Prepared.{Prepared as PreparedOf, ViewEntered, WidthsEntered};
ghost use Rattle.covering.specs.Free.{FreeAt, FreeColumns};
ghost use Rattle.covering.specs.Prepared.{FreeFound};

use model::{Line, MOST_COLUMNS, MOST_TABLES, MOST_VIEWS, Policy, ROW, SHOWN, same_term};

// Where the words of the tables begin, the grants of the views, where the word of every partition stands, where the columns begin, and
// the free columns of the views. Tables are numbered from 1.
pub const TABLE_WORDS: usize = MOST_VIEWS * ROW;

pub const GRANT_WORDS: usize = TABLE_WORDS + MOST_TABLES + 1;

const EVERY_WORD: usize = GRANT_WORDS + MOST_VIEWS;

pub const WIDTH_WORDS: usize = EVERY_WORD + 1;

pub const FREE_WORDS: usize = WIDTH_WORDS + MOST_TABLES + 1;

const PREPARED: usize = FREE_WORDS + MOST_VIEWS;

pub type Prepared = [u64; PREPARED];

// The view at place k and the partitions that grant it. An unused view has table 0.
fn enter_view(v: Line, grants: u64, k: usize, ready: &mut [u64])
    requires { (length ready.old ≡ prepared_long) × (k < most_views) }
    ensures { ViewEntered v grants k ready.old ready.new }
{
    model::lay_line(v, k, ready);
    let table = v.table;
    if table <= MOST_TABLES as u64 {
        let at = TABLE_WORDS + table as usize;
        let m = ready[at];
        ready[at] = words::set_bit(m, k as u64);
    }
    ready[GRANT_WORDS + k] = grants;
}

// The columns of each table.
fn enter_widths(columns: [u64; MOST_TABLES], ready: &mut [u64])
    requires { length ready.old ≡ prepared_long }
    ensures { WidthsEntered columns ready.old ready.new }
{
    ready[WIDTH_WORDS + 1..FREE_WORDS].copy_from_slice(&columns);
}

// No column is known to be free: for a single query it would take longer to find them than to look at all columns.
pub fn prepare(p: Policy) -> Prepared
    requires { p.partition_count ≤ most_partitions }
    ensures { PreparedOf p result }
{
    let mut ready = [0; PREPARED];
    for k in 0..MOST_VIEWS {
        enter_view(p.views[k], p.grants[k], k, &mut ready);
    }
    ready[EVERY_WORD] = words::low_bits(p.partition_count as u64);
    enter_widths(p.tables.columns, &mut ready);
    ready
}

// Whether column p of row k is free: it has a shown variable, which no other column has.
fn is_free(rows: &[u64], k: usize, p: usize) -> bool
    requires { HasRow rows.now k × (p < most_columns) }
    ensures { result ≡ true → FreeAt rows.now k p }
{
    let t = model::term_at(rows, k, p);
    if t.mark != SHOWN {
        return false;
    }
    for q in 0..MOST_COLUMNS {
        if q != p && same_term(t, model::term_at(rows, k, q)) {
            return false;
        }
    }
    true
}

// The free columns of row k, as bits.
fn free_columns(rows: &[u64], k: usize) -> u64
    requires { HasRow rows.now k }
    ensures { FreeColumns rows.now k result }
{
    let mut m = 0;
    for p in 0..MOST_COLUMNS {
        m = words::set_bit_if(m, p as u64, is_free(rows, k, p));
    }
    m
}

// The free columns of each view.
fn find_free(ready: &mut [u64])
    requires { length ready.old ≡ prepared_long }
    ensures { FreeFound ready.old ready.new }
{
    for k in 0..MOST_VIEWS {
        ready[FREE_WORDS + k] = free_columns(ready, k);
    }
}

// What is made of a policy for many queries: the free columns are found too.
pub fn prepare_for_many(p: Policy) -> Prepared
    requires { p.partition_count ≤ most_partitions }
    ensures { PreparedOf p result }
{
    let mut ready = prepare(p);
    find_free(&mut ready);
    ready
}

// The word of every partition, partition n at bit n - 1.
pub fn every_partition(ready: &Prepared) -> u64
    requires { length ready.now ≡ prepared_long }
    ensures { result ≡ get_or ready.now every_word 0 }
{
    ready[EVERY_WORD]
}

// The views of a table, as a word: view n at bit n - 1.
pub fn views_of(ready: &Prepared, table: u64) -> u64
    requires { (length ready.now ≡ prepared_long) × (table ≤ most_tables) }
    ensures { result ≡ table_word ready.now table }
{
    ready[TABLE_WORDS + table as usize]
}

// The partitions that grant the view at place k, partition n at bit n - 1.
pub fn granting(ready: &Prepared, k: u64) -> u64
    requires { (length ready.now ≡ prepared_long) × (k < most_views) }
    ensures { result ≡ grant_word ready.now k }
{
    ready[GRANT_WORDS + k as usize]
}

// The columns of each table, of a table's number, and 0 where there is no such table.
pub fn widths(ready: &[u64]) -> &[u64]
    requires { length ready.now ≡ prepared_long }
    ensures { result.now ≡ drop width_words ready.now }
{
    let from = WIDTH_WORDS;
    &ready[from..]
}
