// A file of rules, one a line, turned into a file of queries.

#![tactic(auto)]

use model::{Refusal, Tables};

// The number of a rule in its file, and the number and line of what turns it back.
fn print_refused(fd: i32, rule: u64, number: u64, line: u64) {
    io::write_all(fd, b"rule ");
    io::print_decimal(fd, rule);
    io::write_all(fd, b" refused ");
    io::print_decimal(fd, number);
    io::write_all(fd, b" ");
    io::print_decimal(fd, line);
    io::write_all(fd, b"\n");
}

// A rule with its line end: its query goes to one file, or what turns it back to the other.
fn translate_line(tables: Tables, rule: u64, text: &[u8], queries: i32, refused: i32) {
    let mut out = io::buffer();
    match import::import_checked(tables, text, &mut out, 0) {
        Ok(n) => {
            io::write_all(queries, &out[..n]);
        }
        Err(Refusal { number, line }) => print_refused(refused, rule, number, line),
    }
}

// The rules in their order, under the tables of a policy that was checked before.
pub fn translate(tables: Tables, rules: &[u8], queries: i32, refused: i32) {
    let mut rule = 1;
    for line in rules.split_inclusive(|b| *b == b'\n') {
        translate_line(tables, rule, line, queries, refused);
        rule += 1;
    }
}
