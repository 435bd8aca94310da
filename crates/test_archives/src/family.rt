// The small queries that are tried. There is one table, of two columns, and six terms stand in its lines.

ghost use Rattle.std.specs.Prelude.{◌+◌, ◌≤◌};

// The terms. A line's number is 6 times the number of its first term, plus that of its second.
pub const TERMS: [[u8; 2]; 6] = [*b"#0", *b"!1", *b"?3", *b"?4", *b"#1", *b"!2"];

// In place of a line's number: no line.
pub const NONE: u64 = 36;

// How many queries there are.
pub const QUERIES: usize = 1518;

// The lines of a query, NONE behind the last.
#[derive(Clone, Copy)]
pub struct Query {
    pub first: u64,
    pub second: u64,
    pub third: u64,
}

// A query is kept as one number, its code, whose digits to the base 37 are the three numbers up to NONE.
pub fn query_of(code: u64) -> Query {
    Query {
        first: code / 37 / 37,
        second: code / 37 % 37,
        third: code % 37,
    }
}

// The query of one line. "A view's answers are those of a query with that one line."
pub fn as_query(line: u64) -> Query {
    Query {
        first: line,
        second: NONE,
        third: NONE,
    }
}

// Whether both terms are among the first four: `#0`, `!1`, `?3` and `?4`.
fn of_few_terms(line: u64) -> bool {
    line / 6 < 4 && line % 6 < 4
}

// One line or two, or three of few terms. They ascend, as their order says nothing, and may be equal.
fn is_tried(q: Query) -> bool {
    if q.first == NONE {
        return false;
    }
    if q.second < q.first || q.third < q.second {
        return false;
    }
    if q.third == NONE {
        return true;
    }
    of_few_terms(q.first) && of_few_terms(q.second) && of_few_terms(q.third)
}

// How many queries there are, this code looked at too; one that is tried goes to the next place. Where no place is left it is
// still counted, so that the count shows whether every query has one.
fn list_query(codes: &mut [u64; QUERIES], n: usize, code: u64) -> usize
    requires { n ≤ 50653 }
    ensures { result ≤ n + 1 }
{
    if !is_tried(query_of(code)) {
        return n;
    }
    if n < QUERIES {
        codes[n] = code;
    }
    n + 1
}

// The codes of the queries, and how many there are.
pub fn list_queries(codes: &mut [u64; QUERIES]) -> usize {
    let mut n = 0;
    for code in 0..37 * 37 * 37 {
        n = list_query(codes, n, code);
    }
    n
}
