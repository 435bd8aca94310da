// The program: reads `policy.txt` and a file of queries from standard input, and writes a line for each decision; or, with the name of a
// mode as its first argument, writes that mode's page.

#![tactic(auto)]

mod modes;

use std::rt::Files;

// Every query of standard input in one session.
fn decide_all(rt: &impl Files) {
    let mut policy = files::policy_room();
    let policy_bytes = files::read_file(rt, b"policy.txt", &mut policy);
    let mut queries = io::large_buffer();
    let query_bytes = io::read_full(0, &mut queries);
    let mut out = run::output_room();
    let n = run::run(&policy[..policy_bytes], &queries[..query_bytes], &mut out);
    io::write_all(1, &out[..n]);
}

fn main(rt: HostRuntime) {
    if !files::has_argument(&rt, 1) {
        decide_all(&rt);
        return;
    }
    let mut name = io::buffer();
    let n = files::argument(&rt, 1, &mut name);
    modes::write_mode(&rt, &name[..n]);
}
