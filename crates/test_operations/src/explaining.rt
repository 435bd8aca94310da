// Explanations.

ghost use Rattle.std.specs.Prelude.{◌≤◌};

use crate::answers::Word;
use crate::{answers, compare, policies};
use model::Policy;
use test_expect::{Said, cells};

// What the call says, but for the count of words. A word that is no answer of this operation stands for a reply that is none of its own.
fn reply(settled: Word, number: u64, line: u64) -> Said {
    let said = match settled {
        Word::Yes => test_expect::settled(0),
        Word::No => test_expect::unsettled(0),
        Word::Empty => test_expect::refused(number, line),
        _ => test_expect::nothing(),
    };
    answers::numbered(said, 0, number, line)
}

fn explained(
    n: u64,
    p: Policy,
    partition: u64,
    room: usize,
    reply: Said,
    words: &[u8],
    query: &[u8],
) -> u64
    requires { room ≤ 10 }
{
    let list = cells::headed(words);
    let mut said = reply;
    said.count = list.count as u64;
    let cells = list.cells;
    compare::words(n, p, partition, query, room, said, cells)
}

// A case is a policy's number, a partition, how many cells are lent, the number and the line of what turns the call back, whether the
// partition settles the query, the words, and the query.
pub fn run_case(n: u64, case: &[u8]) -> u64 {
    let policy = test_expect::number_at(case, 0);
    let partition = test_expect::number_at(case, policy.behind);
    let room = test_expect::number_at(case, partition.behind);
    let number = test_expect::number_at(case, room.behind);
    let line = test_expect::number_at(case, number.behind);
    let settled = answers::answer_at(case, line.behind);
    let word = settled.word;
    let p = policies::policy(policy.value);
    let reply = reply(word, number.value, line.value);
    let mut words_bytes = io::buffer();
    let words = test_expect::text_at(case, settled.behind, &mut words_bytes);
    let mut query_bytes = io::buffer();
    let query = test_expect::text_at(case, words.behind, &mut query_bytes);
    let lent = room.value as usize;
    if 10 < lent || !words.right || !query.right || query.behind != case.len() {
        test_expect::print_malformed(case);
        return n;
    }
    let words_end = words.length;
    let query_end = query.length;
    explained(
        n,
        p,
        partition.value,
        lent,
        reply,
        &words_bytes[..words_end],
        &query_bytes[..query_end],
    )
}
