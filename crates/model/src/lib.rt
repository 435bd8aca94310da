// The values that hold what the texts say, and the reading of a line of terms.

#![tactic(auto)]

mod check;
mod compare;
mod read;
mod rows;

pub use check::{check_columns, check_line};
pub use compare::{is_among, same_term};
pub use read::{blank, mark_of, read_line, read_term, read_terms, up_to, with_mark, within};
pub use rows::{ROW, lay_line, set_mark, table_at, term_at};

// The marks of a term.
pub const UNUSED: u64 = 0;

pub const CONSTANT: u64 = 1;

pub const SHOWN: u64 = 2;

pub const HIDDEN: u64 = 3;

// The limits of document 01.
pub const MOST_TABLES: usize = 16;

pub const MOST_COLUMNS: usize = 8;

pub const MOST_LINES: usize = 8;

pub const MOST_VIEWS: usize = 32;

pub const MOST_PARTITIONS: usize = 32;

pub const LAST_VARIABLE: u64 = 63;

// The lines of a query as rows.
pub type QueryRows = [u64; MOST_LINES * ROW];

// A mark and a number; an unused term is all 0.
#[repr(C)]
#[derive(Clone, Copy, PartialEq, Eq)]
pub struct Term {
    pub mark: u64,
    pub number: u64,
}

// A line of a query, or a view: a table and its terms, unused ones behind them.
#[repr(C)]
#[derive(Clone, Copy)]
pub struct Line {
    pub table: u64,
    pub terms: [Term; MOST_COLUMNS],
}

// The columns of each table, 0 behind the last.
#[repr(C)]
#[derive(Clone, Copy)]
pub struct Tables {
    pub count: usize,
    pub columns: [u64; MOST_TABLES],
}

// The views behind the last are all unused. For each view the partitions that grant it, partition n at bit n - 1; 0 behind the last
// view.
#[repr(C)]
#[derive(Clone, Copy)]
pub struct Policy {
    pub tables: Tables,
    pub view_count: usize,
    pub views: [Line; MOST_VIEWS],
    pub partition_count: usize,
    pub grants: [u64; MOST_VIEWS],
}

// The lines behind the last are all unused.
#[derive(Clone, Copy)]
pub struct Query {
    pub count: usize,
    pub lines: [Line; MOST_LINES],
}

// What turns a call back: the refusal's number, and the line at fault, or 0 where no line is.
#[derive(Clone, Copy)]
pub struct Refusal {
    pub number: u64,
    pub line: u64,
}

// What a field says where a term is wanted.
#[derive(Clone, Copy)]
pub enum Field {
    // It is no term.
    Malformed,
    // A term whose number is past its limit.
    Outside,
    Within(Term),
}

// What a line of terms says. Where it is malformed, or a number of it is past its limit, it says no more.
#[derive(Clone, Copy)]
pub struct Parsed {
    pub ok: bool,
    pub outside: bool,
    pub table: u64,
    // how many terms there are; the first MOST_COLUMNS are kept
    pub count: usize,
    pub terms: [Term; MOST_COLUMNS],
    // the numbers of the shown and of the hidden variables, as bits
    pub shown: u64,
    pub hidden: u64,
}
