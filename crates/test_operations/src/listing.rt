// Labels.

ghost use Rattle.std.specs.Prelude.{◌≤◌};

use crate::{answers, compare, policies};
use model::Policy;
use test_expect::{Said, cells};

// What the call says, but for the count of labels.
fn reply(number: u64, line: u64) -> Said {
    let said = if number == 0 {
        test_expect::given(0)
    } else {
        test_expect::refused(number, line)
    };
    answers::numbered(said, 0, number, line)
}

fn listed(n: u64, p: Policy, room: usize, reply: Said, labels: &[u8], query: &[u8]) -> u64
    requires { room ≤ 10 }
{
    let list = cells::headed(labels);
    let mut said = reply;
    said.count = list.count as u64;
    let cells = list.cells;
    compare::labels(n, p, query, room, said, cells)
}

// A case is a policy's number, how many cells are lent, the number and the line of what turns the call back, the labels, and the query.
pub fn run_case(n: u64, case: &[u8]) -> u64 {
    let policy = test_expect::number_at(case, 0);
    let room = test_expect::number_at(case, policy.behind);
    let number = test_expect::number_at(case, room.behind);
    let line = test_expect::number_at(case, number.behind);
    let p = policies::policy(policy.value);
    let reply = reply(number.value, line.value);
    let mut labels_bytes = io::buffer();
    let labels = test_expect::text_at(case, line.behind, &mut labels_bytes);
    let mut query_bytes = io::buffer();
    let query = test_expect::text_at(case, labels.behind, &mut query_bytes);
    let lent = room.value as usize;
    if 10 < lent || !labels.right || !query.right || query.behind != case.len() {
        test_expect::print_malformed(case);
        return n;
    }
    let labels_end = labels.length;
    let query_end = query.length;
    listed(
        n,
        p,
        lent,
        reply,
        &labels_bytes[..labels_end],
        &query_bytes[..query_end],
    )
}
