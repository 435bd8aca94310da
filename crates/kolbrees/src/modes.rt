// The modes: each reads what it needs and writes its page.

ghost use Rattle.std.specs.Prelude.{◌≤◌, length};
ghost use Rattle.page.specs.Sizes.{most_page};

use std::rt::{Env, Files};
use text::Numeral;

// A query text one byte past its limit, so that a longer one is turned back as too long.
const MOST_QUERY: usize = 4097;

// The number that an argument says, or 0, which is no partition.
fn number_at(rt: &impl Env, i: usize) -> u64 {
    let mut word = io::buffer();
    let n = files::argument(rt, i, &mut word);
    match text::read_numeral(&word[..n]) {
        Numeral::Value(v) => v,
        _ => 0,
    }
}

fn write_check(rt: &impl Files) {
    let mut policy = files::policy_room();
    let policy_bytes = files::read_file(rt, b"policy.txt", &mut policy);
    let mut out = page::page_room();
    let n = mode_check::check_page(&policy[..policy_bytes], &mut out);
    io::write_all(1, &out[..n]);
}

fn write_labels(rt: &impl Files) {
    let mut policy = files::policy_room();
    let policy_bytes = files::read_file(rt, b"policy.txt", &mut policy);
    let mut query = [0; MOST_QUERY];
    let query_bytes = io::read_full(0, &mut query);
    let mut out = page::page_room();
    let n = mode_labels::labels_page(&policy[..policy_bytes], &query[..query_bytes], &mut out);
    io::write_all(1, &out[..n]);
}

// The modes that look at one partition.
#[derive(Clone, Copy)]
enum OfPartition {
    Explain,
    Grant,
    Apart,
}

// The page of such a mode for a policy, the partition and a query; how many bytes it has.
fn page_of(mode: OfPartition, policy: &[u8], partition: u64, query: &[u8], out: &mut [u8]) -> usize
    requires { most_page ≤ length out.old }
    ensures { result ≤ length out.new }
{
    match mode {
        OfPartition::Explain => mode_explain::explain_page(policy, partition, query, out),
        OfPartition::Grant => mode_grant::grant_page(policy, partition, query, out),
        OfPartition::Apart => mode_apart::apart_page(policy, partition, query, out),
    }
}

fn write_of_partition(rt: &(impl Env + Files), mode: OfPartition) {
    let mut policy = files::policy_room();
    let policy_bytes = files::read_file(rt, b"policy.txt", &mut policy);
    let mut query = [0; MOST_QUERY];
    let query_bytes = io::read_full(0, &mut query);
    let mut out = page::page_room();
    let n = page_of(
        mode,
        &policy[..policy_bytes],
        number_at(rt, 2),
        &query[..query_bytes],
        &mut out,
    );
    io::write_all(1, &out[..n]);
}

fn write_rules(rt: &impl Files) {
    let mut policy = files::policy_room();
    let policy_bytes = files::read_file(rt, b"policy.txt", &mut policy);
    let mut rules = io::large_buffer();
    let rule_bytes = io::read_full(0, &mut rules);
    let mut out = mode_rules::rules_room();
    let n = mode_rules::rules_page(&policy[..policy_bytes], &rules[..rule_bytes], &mut out);
    io::write_all(1, &out[..n]);
}

fn write_compare(rt: &impl Env) {
    let mut x = io::buffer();
    let x_bytes = files::argument(rt, 2, &mut x);
    let mut y = io::buffer();
    let y_bytes = files::argument(rt, 3, &mut y);
    let mut out = page::page_room();
    let n = mode_compare::compare_page(&x[..x_bytes], &y[..y_bytes], &mut out);
    io::write_all(1, &out[..n]);
}

// The mode of a name; for any other, which modes there are.
pub fn write_mode(rt: &(impl Env + Files), name: &[u8]) {
    match name {
        b"check" => write_check(rt),
        b"labels" => write_labels(rt),
        b"explain" => write_of_partition(rt, OfPartition::Explain),
        b"grant" => write_of_partition(rt, OfPartition::Grant),
        b"apart" => write_of_partition(rt, OfPartition::Apart),
        b"compare" => write_compare(rt),
        b"rules" => write_rules(rt),
        _ => {
            io::write_all(
                2,
                b"the modes are: check, labels, explain PARTITION, grant PARTITION, apart PARTITION, compare LABEL LABEL, rules\n",
            );
        }
    }
}
