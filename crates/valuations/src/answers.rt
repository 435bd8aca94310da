// Whether values are an answer of a query on an archive, and all of its answers.

ghost use Rattle.std.specs.Prelude.{◌≡◌, ◌≤◌, length};

use crate::valuation::{ROW, VARIABLES, Values, line_becomes, take_back};
use model::SHOWN;

// ---- one answer

// The line that is said to give the values of an answer: none takes them back.
const ANSWER: u64 = 9;

// Whether the lines from k on can become rows of the archive, with the values that there are.
fn completes(
    lines: &[u64],
    k: usize,
    archive: &[u64],
    given: &mut Values,
    values: &mut Values,
) -> bool
    requires { length lines.now ≤ 136 }
{
    if lines.len() / model::ROW <= k {
        return true;
    }
    for row in archive.chunks_exact(ROW) {
        if line_becomes(lines, k, row, given, values)
            && completes(lines, k + 1, archive, given, values)
        {
            return true;
        }
        take_back(k, given);
    }
    false
}

// Whether some answer of the query on the archive has these values for the shown variables of a word, variable n at bit n.
pub fn is_answer(lines: &[u64], archive: &[u64], word: u64, shown: &[u64]) -> bool
    requires { (length lines.now ≤ 136) × (length shown.now ≡ 64) }
{
    let mut given = [0; VARIABLES * 2];
    let mut values = [0; VARIABLES * 2];
    for x in 0..VARIABLES {
        given[x] = words::value_if(ANSWER, words::has_bit(word, x as u64));
    }
    values[..VARIABLES].copy_from_slice(shown);
    completes(lines, 0, archive, &mut given, &mut values)
}

// ---- all answers

// How many answers are kept, and room for these: 64 numbers each, 0 for a variable that the query lacks.
pub const MOST_ANSWERS: usize = 64;

pub type Answers = [u64; MOST_ANSWERS * VARIABLES];

pub fn no_answers() -> Answers
    ensures { 4096 ≡ length result }
{
    [0; MOST_ANSWERS * VARIABLES]
}

// The shown variables of a query, as bits.
pub fn shown_word(lines: &[u64]) -> u64
    requires { length lines.now ≤ 136 }
{
    let mut word = 0;
    for k in 0..lines.len() / model::ROW {
        for p in 0..8 {
            let t = model::term_at(lines, k, p);
            word = words::set_bit_if(word, t.number % 64, t.mark == SHOWN);
        }
    }
    word
}

// One answer more, if there is room. How many there are then.
fn keep(answers: &mut Answers, count: usize, shown: &[u64]) -> usize
    requires { length shown.now ≡ 64 }
    ensures upper_bound { result ≤ 64 }
    ensures answers_len_unchanged { length answers.new ≡ length answers.old }
{
    if MOST_ANSWERS <= count {
        return MOST_ANSWERS;
    }
    for (x, value) in shown.iter().enumerate() {
        answers[count * VARIABLES + x] = *value;
    }
    count + 1
}

// The answers that have the values so far for the shown variables of `known`, behind `count` answers; each number of
// `domain` is tried, once, for the first variable of `rest`. How many answers there are then.
fn collect(
    lines: &[u64],
    archive: &[u64],
    domain: &[u64],
    rest: u64,
    known: u64,
    shown: &mut [u64],
    answers: &mut Answers,
    count: usize,
) -> usize
    requires { (length lines.now ≤ 136) × (length shown.old ≡ 64) × (count ≤ 64) }
    ensures upper_bound { result ≤ 64 }
    ensures shown_len_unchanged { length shown.new ≡ length shown.old }
    ensures answers_len_unchanged { length answers.new ≡ length answers.old }
{
    if !is_answer(lines, archive, known, shown) {
        return count;
    }
    if rest == 0 {
        return keep(answers, count, shown);
    }
    let x = words::least(rest);
    let left = words::drop_least(rest);
    let next = words::set_bit(known, x);
    let mut found = count;
    for (at, value) in domain.iter().enumerate() {
        if found == MOST_ANSWERS {
            break;
        }
        if !domain[..at].contains(value) {
            shown[x as usize] = *value;
            found = collect(lines, archive, domain, left, next, shown, answers, found);
        }
    }
    found
}

// The answers of a query on an archive that have numbers of `domain`, in the order in which these stand there, as many as are kept. How
// many these are.
pub fn answers_of(lines: &[u64], archive: &[u64], domain: &[u64], answers: &mut Answers) -> usize
    requires { length lines.now ≤ 136 }
    ensures upper_bound { result ≤ 64 }
    ensures answers_len_unchanged { length answers.new ≡ length answers.old }
{
    let mut shown = [0; VARIABLES];
    let word = shown_word(lines);
    collect(lines, archive, domain, word, 0, &mut shown, answers, 0)
}
