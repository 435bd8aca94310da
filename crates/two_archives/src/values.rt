// Values as they are printed. A constant of the policy or of the query is its number; of the others the desk is free to choose, so each is
// a letter, in the order in which they are printed.

ghost use Rattle.std.specs.Prelude.{◌*◌, ◌≤◌, length};

use model::{CONSTANT, MOST_COLUMNS, MOST_LINES, MOST_VIEWS, Policy, QueryRows};

// As many numbers as forty rows have values, or views and lines terms; the first cell says how many there are.
pub type List = [u64; 321];

// One number more, if there is room.
fn add(list: &mut List, v: u64) {
    let n = list[0];
    if n < 320 {
        list[1 + n as usize] = v;
        list[0] = n + 1;
    }
}

// The place of a number in a list, counted from 0, or as many as there are.
fn place_in(list: &List, v: u64) -> u64 {
    for (i, number) in list[1..].iter().take(list[0] as usize).enumerate() {
        if *number == v {
            return i as u64;
        }
    }
    list[0]
}

// The constants of rows, behind those of a list.
fn add_constants(rows: &[u64], list: &mut List) {
    for k in 0..rows.len() / model::ROW {
        for p in 0..MOST_COLUMNS {
            let t = model::term_at(rows, k, p);
            if t.mark == CONSTANT {
                add(list, t.number);
            }
        }
    }
}

// The constants of the policy and of a query's lines.
pub fn constants_of(p: Policy, lines: QueryRows) -> List {
    let mut list = no_names();
    for k in 0..MOST_VIEWS {
        add_constants(&valuations::view_rows(p, k), &mut list);
    }
    add_constants(&lines, &mut list);
    list
}

pub fn no_names() -> List {
    [0; 321]
}

// A letter, and behind the last letter a number too.
fn print_name(i: u64) {
    let letter = [97 + (i % 26) as u8];
    io::write_all(1, &letter);
    if 26 <= i {
        io::print_decimal(1, i / 26);
    }
}

pub fn print(v: u64, known: &List, names: &mut List) {
    if place_in(known, v) < known[0] {
        io::print_decimal(1, v);
        return;
    }
    let i = place_in(names, v);
    if names[0] <= i {
        add(names, v);
    }
    print_name(i);
}
