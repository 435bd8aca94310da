// Rules as queries: reads `policy.txt` and a file of rules, one a line, from standard input. The queries go to standard output, and for
// each rule that is turned back a line with its number and the refusal's to standard error.

#![tactic(auto)]

fn main(rt: HostRuntime) {
    let mut policy = files::policy_room();
    let policy_bytes = files::read_file(&rt, b"policy.txt", &mut policy);
    let mut rules = io::large_buffer();
    let rule_bytes = io::read_full(0, &mut rules);
    match load::load(&policy[..policy_bytes]) {
        Ok(p) => rule_file::translate(p.tables, &rules[..rule_bytes], 1, 2),
        Err(r) => {
            io::write_all(1, b"policy refused ");
            io::print_decimal(1, r.number);
            io::write_all(1, b" ");
            io::print_decimal(1, r.line);
            io::write_all(1, b"\n");
        }
    }
}
