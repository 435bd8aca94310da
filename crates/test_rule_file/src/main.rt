// A file of rules, one a line, turned into query texts: a rule, one that 11 turns back, an empty line, a rule, and one without its line
// end. What is written of the rules that are turned back stands among the texts, so that the order is seen.

#![tactic(auto)]

fn main() {
    let p = test_expect::example();
    rule_file::translate(
        p.tables,
        b"Q1(x, y) :- T1(x, y, z), T2(x, 7)
Q(z) :- T2(x, y)

Q(x) :- T2(5, x)
Q(x) :- T2(x, y)",
        1,
        1,
    );
}
