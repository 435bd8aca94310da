// A text read, and what is said of it compared with what document 01 lays down.

use model::{Refusal, Tables};

// What a text is read as.
#[derive(Clone, Copy)]
pub enum Kind {
    Query,
    Policy,
}

// The number that turns a text back, 0 where it is taken, and its line.
#[derive(Clone, Copy)]
struct Said {
    number: u64,
    line: u64,
}

fn told<T: Drop>(reply: Result<T, Refusal>) -> Said {
    match reply {
        Ok(_) => Said { number: 0, line: 0 },
        Err(Refusal { number, line }) => Said { number, line },
    }
}

// Tables of 3, 2, 8 and 1 columns.
fn tables() -> Tables {
    let mut columns = [0; 16];
    columns[..4].copy_from_slice(&[3, 2, 8, 1]);
    Tables { count: 4, columns }
}

fn query(text: &[u8]) -> Said {
    told(query_text::read_query(tables(), text))
}

fn policy(text: &[u8]) -> Said {
    told(load::load(text))
}

// One case more: the text is turned back by this number at this line, or taken where both are 0.
pub fn case(n: u64, name: &[u8], kind: Kind, text: &[u8], number: u64, line: u64) -> u64 {
    let said = match kind {
        Kind::Query => query(text),
        Kind::Policy => policy(text),
    };
    if said.number != number || said.line != line {
        io::write_all(1, b"said ");
        io::print_decimal(1, said.number);
        io::write_all(1, b" ");
        io::print_decimal(1, said.line);
        io::write_all(1, b" of ");
        io::write_all(1, name);
        io::write_all(1, b"\n");
    }
    test_expect::counted(n)
}
