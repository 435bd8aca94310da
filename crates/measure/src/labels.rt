// A query labelled again and again.

ghost use Rattle.labelling.specs.Posed.{SomePosed};
ghost use Rattle.labelling.specs.Text.{SomePolicy};

use covering::Prepared;
use labelling::Labels;
use model::{Policy, Query};

fn sum_of(l: Labels) -> u64 {
    let w = l.words;
    w.words.iter().fold(0, |sum, word| sum.wrapping_add(*word))
}

fn label_again(ready: &Prepared, q: Query, times: u64) -> u64
    requires { SomePosed ready.now q }
{
    let mut sum = 0u64;
    for _ in 0..times {
        let l = labelling::label_query(ready, q);
        sum = sum.wrapping_add(sum_of(l));
    }
    sum
}

fn read_and_label(p: Policy, query: &[u8], times: u64) -> u64
    requires { SomePolicy p }
{
    let ready = covering::prepare_for_many(p);
    let tables = p.tables;
    match query_text::read_query(tables, query) {
        Ok(q) => label_again(&ready, q, times),
        Err(_) => 0,
    }
}

// The query of a text labelled so many times under the policy of a text: the sum of all the words modulo 2^64. Policy and
// query are read once.
#[unsafe(no_mangle)]
pub extern "C" fn measure_label(policy: &[u8], query: &[u8], times: u64) -> u64 {
    match load::load(policy) {
        Ok(p) => read_and_label(p, query, times),
        Err(_) => 0,
    }
}
