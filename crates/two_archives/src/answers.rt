// Answers on both archives, a line for each.

ghost use Rattle.std.specs.Prelude.{◌≡◌, ◌≤◌, length};

use crate::values;
use crate::values::List;
use model::{MOST_VIEWS, Policy};
use valuations::{MOST_ANSWERS, ROW, VARIABLES};

// The shown variables that answers give values to.
fn print_variables(word: u64) {
    for x in 0..VARIABLES as u64 {
        if words::has_bit(word, x) {
            io::write_all(1, b" !");
            io::print_decimal(1, x);
        }
    }
    io::write_all(1, b"\n");
}

// Their values. Without a shown variable an answer says no more than that there is one.
fn print_answer(answer: &[u64], word: u64, known: &List, names: &mut List)
    requires { length answer.now ≡ 64 }
{
    io::write_all(1, b"     ");
    if word == 0 {
        io::write_all(1, b" yes");
    }
    for (x, value) in answer.iter().enumerate() {
        if words::has_bit(word, x as u64) {
            io::write_all(1, b" ");
            values::print(*value, known, names);
        }
    }
    io::write_all(1, b"\n");
}

// The answers on an archive, in the order of the rows of the first.
fn print_answers(lines: &[u64], archive: &[u64], rows: &[u64], known: &List, names: &mut List)
    requires { length lines.now ≤ 136 }
{
    let word = valuations::shown_word(lines);
    print_variables(word);
    let mut answers = valuations::no_answers();
    let count = valuations::answers_of(lines, archive, rows, &mut answers);
    if count == 0 {
        io::write_all(1, b"      none\n");
    }
    for answer in answers.chunks_exact(VARIABLES).take(count) {
        print_answer(answer, word, known, names);
    }
    if count == MOST_ANSWERS {
        io::write_all(1, b"      no more than 64 are printed\n");
    }
}

// The view at place k on both archives.
fn of_view(p: Policy, k: usize, rows: &[u64], known: &List, names: &mut List)
    requires { (k ≤ 31) × (9 ≤ length rows.now) }
{
    let line = valuations::view_rows(p, k);
    let both: [(&[u8], &[u64]); 2] = [(b" on archive 1:", rows), (b" on archive 2:", &rows[ROW..])];
    for (said, archive) in both {
        io::write_all(1, b"  view ");
        io::print_decimal(1, k as u64 + 1);
        io::write_all(1, said);
        print_answers(&line, archive, rows, known, names);
    }
}

// The views that partition n grants.
pub fn of_views(p: Policy, n: u64, rows: &[u64], known: &List, names: &mut List)
    requires { 9 ≤ length rows.now }
{
    for k in 0..MOST_VIEWS {
        if valuations::grants(p, n, k) {
            of_view(p, k, rows, known, names);
        }
    }
}

pub fn of_query(lines: &[u64], rows: &[u64], known: &List, names: &mut List)
    requires { (length lines.now ≤ 136) × (9 ≤ length rows.now) }
{
    let both: [(&[u8], &[u64]); 2] = [
        (b"  query on archive 1:", rows),
        (b"  query on archive 2:", &rows[ROW..]),
    ];
    for (said, archive) in both {
        io::write_all(1, said);
        print_answers(lines, archive, rows, known, names);
    }
}
