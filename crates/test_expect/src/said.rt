// What a reply of the desk says.

// The word of a reply.
#[derive(Clone, Copy, PartialEq, Eq)]
enum Word {
    Yes,
    No,
    Refused,
    Given,
    Settled,
    Unsettled,
    Apart,
    Written,
    Nothing,
}

// The word, count, number and line of a reply.
#[derive(Clone, Copy, PartialEq, Eq)]
pub struct Said {
    word: Word,
    pub count: u64,
    pub number: u64,
    pub line: u64,
}

// A reply that turns nothing back.
fn answered(word: Word, count: u64) -> Said {
    Said {
        word,
        count,
        number: 0,
        line: 0,
    }
}

// Deciding: the count of partitions still open.
pub fn yes(count: u64) -> Said {
    answered(Word::Yes, count)
}

pub fn no(count: u64) -> Said {
    answered(Word::No, count)
}

// Giving labels: the length of the list.
pub fn given(count: u64) -> Said {
    answered(Word::Given, count)
}

// Explaining: the length of the list.
pub fn settled(count: u64) -> Said {
    answered(Word::Settled, count)
}

pub fn unsettled(count: u64) -> Said {
    answered(Word::Unsettled, count)
}

// Telling a query apart: the number of rows.
pub fn apart(count: u64) -> Said {
    answered(Word::Apart, count)
}

// Importing a rule: the number of bytes.
pub fn written(count: u64) -> Said {
    answered(Word::Written, count)
}

// The smallest extra grant: no views will do.
pub fn nothing() -> Said {
    answered(Word::Nothing, 0)
}

// Any operation: "a count in the reply is 0".
pub fn refused(number: u64, line: u64) -> Said {
    Said {
        word: Word::Refused,
        count: 0,
        number,
        line,
    }
}

fn print_word(word: Word) {
    let spelt: &[u8] = match word {
        Word::Yes => b"yes",
        Word::No => b"no",
        Word::Refused => b"refused",
        Word::Given => b"given",
        Word::Settled => b"settled",
        Word::Unsettled => b"not settled",
        Word::Apart => b"apart",
        Word::Written => b"written",
        Word::Nothing => b"none",
    };
    io::write_all(1, spelt);
}

// What case n said; the line is left open.
pub fn print_case(n: u64, s: Said) {
    io::write_all(1, b"case ");
    io::print_decimal(1, n);
    io::write_all(1, b" said ");
    print_word(s.word);
    io::write_all(1, b" ");
    io::print_decimal(1, s.count);
    io::write_all(1, b" ");
    io::print_decimal(1, s.number);
    io::write_all(1, b" ");
    io::print_decimal(1, s.line);
}

// One case more.
pub fn counted(n: u64) -> u64 {
    if n < 1_000_000 {
        return n + 1;
    }
    n
}
