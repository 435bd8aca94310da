// A run of the desk over a file of queries: from the policy's bytes and the queries' bytes to the bytes written.

#![tactic(auto)]

mod next;

ghost use Rattle.std.specs.Prelude.{◌≡◌, ◌+◌, ◌≤◌, length};
ghost use Rattle.labelling.specs.Posed.{SomeReady};
ghost use Rattle.writing.specs.Wrote.{Wrote};
ghost use Rattle.run.specs.Sizes.{most_input, most_output, word_long, line_long, lines_long};
ghost use Rattle.run.specs.Run.{written};
ghost use Rattle.run.specs.Writing.{LineWritten, ReplyWritten, AllWritten};

use covering::Prepared;
use desk::{Reply, Session};
use model::{MOST_LINES, ROW, Tables};
pub use next::{NextDecision, decide_next};

// The most bytes of queries, and room for the output of any such: a query text behind the first has the 12 bytes of its names line at
// least.
pub const MOST_QUERIES: usize = 65536;

pub const MOST_OUTPUT: usize = 524288;

// As many bytes as there is room for.
fn zeros() -> [u8; MOST_OUTPUT] {
    [0; MOST_OUTPUT]
}

// Room for all that is written.
pub fn output_room() -> [u8; MOST_OUTPUT]
    ensures { most_output ≡ length result }
{
    zeros()
}

// A line of the output.
fn put_line(
    out: &mut [u8],
    at: usize,
    query: u64,
    word: &[u8],
    left: u64,
    number: u64,
    line: u64,
) -> usize
    requires { (at + line_long ≤ length out.old) × (length word.now ≤ word_long) }
    ensures line_written { LineWritten query word.now left number line out.old at out.new result }
    ensures out_len_unchanged { (length out.new ≡ length out.old) × (result ≤ at + line_long) }
{
    let a = writing::put_field(out, at, query, b' ');
    let b = writing::put_bytes(out, a, word);
    let c = writing::put_byte(out, b, b' ');
    let d = writing::put_field(out, c, left, b' ');
    let e = writing::put_field(out, d, number, b' ');
    writing::put_field(out, e, line, b'\n')
}

// The line for a query that got this reply and left so many partitions open.
fn put_reply(out: &mut [u8], at: usize, query: u64, reply: Reply, left: u64) -> usize
    requires { at + line_long ≤ length out.old }
    ensures { ReplyWritten query reply left out.old at out.new result × (result ≤ at + line_long) }
{
    match reply {
        Reply::Yes { count: _ } => put_line(out, at, query, b"yes", left, 0, 0),
        Reply::No { count: _ } => put_line(out, at, query, b"no", left, 0, 0),
        Reply::Refused { number, line } => put_line(out, at, query, b"refused", left, number, line),
    }
}

// The queries, each in the session that the one before it left.
fn decide_all(
    tables: Tables,
    ready: &Prepared,
    opened: Session,
    queries: &[u8],
    out: &mut [u8],
    start: usize,
) -> usize
    requires { SomeReady tables ready.now × (length queries.now ≤ most_input) × (start + lines_long ≤ length out.old) }
    ensures all_written { AllWritten tables ready.now opened queries.now out.old start out.new result }
    ensures upper_bound { result ≤ start + lines_long }
{
    let mut lines = [0; MOST_LINES * ROW];
    let mut s = opened;
    let mut query: u64 = 1;
    let mut at = 0;
    let mut to = start;
    // no `for`: only deciding a query tells where its text ends, and the next starts there
    while at < queries.len() {
        let next = decide_next(tables, ready, s, &queries[at..], &mut lines);
        let d = next.decision;
        s = d.session;
        let reply = d.reply;
        to = put_reply(out, to, query, reply, words::ones(s.mask));
        query += 1;
        at = at + next.end;
    }
    to
}

// Writes the output to the front of a buffer that has room for it, leaves the rest as it was, and tells the output's length.
pub fn run(policy: &[u8], queries: &[u8], out: &mut [u8]) -> usize
    requires { (length queries.now ≤ most_input) × (most_output ≤ length out.old) }
    ensures wrote { Wrote out.old 0 (written policy.now queries.now) out.new result }
    ensures upper_bound { result ≤ length out.new }
{
    let at = writing::put_bytes(out, 0, b"query answer open refusal line\n");
    match load::load(policy) {
        Err(r) => put_line(out, at, 0, b"refused", 0, r.number, r.line),
        Ok(p) => {
            let ready = covering::prepare_for_many(p);
            let tables = p.tables;
            let opened = desk::open_loaded(&ready);
            decide_all(tables, &ready, opened, queries, out, at)
        }
    }
}
