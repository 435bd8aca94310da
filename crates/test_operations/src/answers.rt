// The answers of cases: a word in a field of its own, and numbers.

ghost use Rattle.std.specs.Prelude.{◌≤◌, length};

use test_expect::Said;

#[derive(Clone, Copy)]
pub enum Word {
    Yes,
    No,
    Refused,
    // No byte stands in the field.
    Empty,
    // Other bytes do, or nothing ends it.
    Unknown,
}

// A word, and the place behind its field; the line's end where it is unknown, so that no field is found behind it.
#[derive(Clone, Copy)]
pub struct Answer {
    pub word: Word,
    pub behind: usize,
}

fn spelt(bytes: &[u8]) -> Word {
    match bytes {
        b"yes" => Word::Yes,
        b"no" => Word::No,
        b"refused" => Word::Refused,
        [] => Word::Empty,
        _ => Word::Unknown,
    }
}

// The word whose field starts here.
pub fn answer_at(line: &[u8], at: usize) -> Answer
    requires { at ≤ length line.now }
    ensures { result.behind ≤ length line.now }
{
    let none = Answer {
        word: Word::Unknown,
        behind: line.len(),
    };
    let end = test_expect::place_of(line, at, b'|');
    if end == line.len() {
        return none;
    }
    let word = spelt(&line[at..end]);
    match word {
        Word::Unknown => none,
        _ => Answer {
            word,
            behind: end + 1,
        },
    }
}

// A reply with the numbers of its case, so that a case with a number that its reply cannot have is found.
pub fn numbered(reply: Said, count: u64, number: u64, line: u64) -> Said {
    let mut said = reply;
    said.count = count;
    said.number = number;
    said.line = line;
    said
}
