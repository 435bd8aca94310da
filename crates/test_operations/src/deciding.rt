// Deciding in a lent session.

use crate::answers::Word;
use crate::{answers, policies};
use test_expect::Said;

// What the call says. A word that is no answer of this operation stands for a reply that is none of its own.
fn said(word: Word, count: u64, number: u64, line: u64) -> Said {
    let reply = match word {
        Word::Yes => test_expect::yes(count),
        Word::No => test_expect::no(count),
        Word::Refused => test_expect::refused(number, line),
        _ => test_expect::nothing(),
    };
    answers::numbered(reply, count, number, line)
}

// A case is a policy's number, the partitions open, the answer, their count, the number and the line of what turns the call back, the
// partitions left open, and the query.
pub fn run_case(n: u64, case: &[u8]) -> u64 {
    let policy = test_expect::number_at(case, 0);
    let open = test_expect::number_at(case, policy.behind);
    let answer = answers::answer_at(case, open.behind);
    let count = test_expect::number_at(case, answer.behind);
    let number = test_expect::number_at(case, count.behind);
    let line = test_expect::number_at(case, number.behind);
    let left = test_expect::number_at(case, line.behind);
    let mut bytes = io::buffer();
    let query = test_expect::text_at(case, left.behind, &mut bytes);
    if !query.right || query.behind != case.len() {
        test_expect::print_malformed(case);
        return n;
    }
    let end = query.length;
    let word = answer.word;
    let said = said(word, count.value, number.value, line.value);
    let p = policies::policy(policy.value);
    test_expect::decided(n, p, open.value, &bytes[..end], said, left.value)
}
