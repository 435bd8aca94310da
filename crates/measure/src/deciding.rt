// A query text decided again and again, each time in the session that opening gives.

ghost use Rattle.labelling.specs.Posed.{SomeReady};
ghost use Rattle.labelling.specs.Text.{SomePolicy};

use covering::Prepared;
use desk::Reply;
use model::{Policy, Tables};

// A number for each reply: its count for a yes, 100 and its count for a no, and for a refusal 1,000 and its number.
fn number_of(r: Reply) -> u64 {
    match r {
        Reply::Yes { count } => count,
        Reply::No { count } => 100u64.wrapping_add(count),
        Reply::Refused { number, .. } => 1000u64.wrapping_add(number),
    }
}

fn decide_again(tables: Tables, ready: &Prepared, text: &[u8], times: u64) -> u64
    requires { SomeReady tables ready.now }
{
    let s = desk::open_loaded(ready);
    let mut sum = 0u64;
    for _ in 0..times {
        let d = desk::decide_loaded(tables, ready, s, text);
        let reply = d.reply;
        sum = sum.wrapping_add(number_of(reply));
    }
    sum
}

fn prepare_and_decide(p: Policy, text: &[u8], times: u64) -> u64
    requires { SomePolicy p }
{
    let ready = covering::prepare_for_many(p);
    let tables = p.tables;
    decide_again(tables, &ready, text, times)
}

// The text decided so many times under the policy of a text, as a run over a file does: the policy is known to be loaded.
#[unsafe(no_mangle)]
pub extern "C" fn measure_decide(policy: &[u8], query: &[u8], times: u64) -> u64 {
    match load::load(policy) {
        Ok(p) => prepare_and_decide(p, query, times),
        Err(_) => 0,
    }
}
