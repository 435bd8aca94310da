// Two archives behind a no, for people to look at. Reads `policy.txt` and a query from standard input; its arguments are the numbers of
// partitions. For each it prints whether the partition settles the query, and if not both archives as tables, with the answers of the
// partition's views and of the query on each, worked out by valuations alone, and the fewest views that would settle it.

#![tactic(auto)]

mod answers;
mod archives;
mod granting;
mod values;

ghost use Rattle.std.specs.Prelude.{◌≤◌, length};

use apart::Telling;
use model::{Policy, Refusal};
use std::rt::Env;
use text::Numeral;

// A refusal, and the end of the line that it stands in.
fn print_refusal(number: u64, line: u64) {
    io::write_all(1, b"refused ");
    io::print_decimal(1, number);
    io::write_all(1, b" ");
    io::print_decimal(1, line);
    io::write_all(1, b"\n");
}

// Both archives, and the answers on them.
fn print_apart(p: Policy, n: u64, text: &[u8], rows: &[u64])
    requires { 9 ≤ length rows.now }
{
    let q = query_text::read_query(p.tables, text).unwrap_or(query_text::no_query());
    if model::MOST_LINES < q.count {
        return;
    }
    let lines = entering::query_rows(q);
    let known = values::constants_of(p, lines);
    let mut names = values::no_names();
    io::write_all(1, b"not settled\n");
    archives::print_both(p, rows, &known, &mut names);
    answers::of_views(p, n, rows, &known, &mut names);
    let end = q.count * model::ROW;
    answers::of_query(&lines[..end], rows, &known, &mut names);
}

// What the desk says of a partition.
fn print_partition(p: Policy, n: u64, text: &[u8]) {
    io::write_all(1, b"partition ");
    io::print_decimal(1, n);
    io::write_all(1, b": ");
    let mut rows = [0; 360];
    match apart::tell_apart(p, n, text, &mut rows) {
        Ok(Telling::Settled) => {
            io::write_all(1, b"settled\n");
        }
        Ok(Telling::Apart { rows: count }) => {
            let end = count * valuations::ROW;
            print_apart(p, n, text, &rows[..end]);
            granting::print_lacking(p, n, text)
        }
        Err(Refusal { number, line }) => print_refusal(number, line),
    }
}

// The number that an argument says, or 0, which is no partition.
fn partition_at(rt: &impl Env, i: usize) -> u64 {
    let mut word = io::buffer();
    let n = files::argument(rt, i, &mut word);
    match text::read_numeral(&word[..n]) {
        Numeral::Value(v) => v,
        _ => 0,
    }
}

fn print_partitions(rt: &impl Env, p: Policy, text: &[u8]) {
    for i in 1..usize::MAX {
        if !files::has_argument(rt, i) {
            break;
        }
        print_partition(p, partition_at(rt, i), text);
    }
}

fn main(rt: HostRuntime) {
    let mut policy = files::policy_room();
    let policy_bytes = files::read_file(&rt, b"policy.txt", &mut policy);
    let mut query = io::large_buffer();
    let query_bytes = io::read_full(0, &mut query);
    match load::load(&policy[..policy_bytes]) {
        Ok(p) => print_partitions(&rt, p, &query[..query_bytes]),
        Err(r) => {
            io::write_all(1, b"policy ");
            print_refusal(r.number, r.line);
        }
    }
}
