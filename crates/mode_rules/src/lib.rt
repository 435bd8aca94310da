// The mode `rules`: a file of rules, one a line, turned into one page.

#![tactic(auto)]

mod turned;

ghost use Rattle.std.specs.Prelude.{◌≡◌, ◌+◌, ◌*◌, ◌≤◌, ◌<◌, length};
ghost use Rattle.writing.specs.Wrote.{Wrote};
ghost use Rattle.run.specs.Sizes.{most_input};
ghost use Rattle.mode_rules.specs.Sizes.{each_byte, spare, rules_room};
ghost use Rattle.mode_rules.specs.RulesPage.{rules_page};
ghost use Rattle.mode_rules.specs.Writing.{Under, RuleWritten, RulesWritten};

use model::{Refusal, Tables};

// Room for the page of 65,536 bytes of rules.
pub const RULES_ROOM: usize = 2097216;

pub fn rules_room() -> [u8; RULES_ROOM]
    ensures { rules_room ≡ length result }
{
    [0; RULES_ROOM]
}

// The query text of a rule, or what turns it back and what is shown of it.
fn put_rule(tables: Tables, k: u64, rule: &[u8], shown: &[u8], out: &mut [u8], at: usize) -> usize
    requires { Under tables × (1 ≤ length rule.now) × (length shown.now ≤ length rule.now) × (k ≤ most_input)
        × (at + each_byte * length rule.now + spare ≤ length out.old) }
    ensures rule_written { RuleWritten tables k rule.now shown.now out.old at out.new result }
    ensures upper_bound { result ≤ at + each_byte * length rule.now }
{
    match import::import_checked(tables, rule, out, at) {
        Ok(bytes) => at + bytes,
        Err(Refusal { number, line }) => turned::put_turned(out, at, k, shown, number, line),
    }
}

// The rules in their order, numbered from 1.
fn put_rules(tables: Tables, rules: &[u8], out: &mut [u8]) -> usize
    requires { Under tables × (length rules.now ≤ most_input) × (rules_room ≤ length out.old) }
    ensures { RulesWritten tables rules.now out.old out.new result }
{
    let mut k: u64 = 1;
    let mut to = 0;
    for rule in rules.split_inclusive(|b| *b == b'\n') {
        let shown = rule.strip_suffix(b"\n").unwrap_or(rule);
        to = put_rule(tables, k, rule, shown, out, to);
        k += 1;
    }
    to
}

// The page for a policy text and a file of rules.
pub fn rules_page(policy: &[u8], rules: &[u8], out: &mut [u8]) -> usize
    requires { (length rules.now ≤ most_input) × (rules_room ≤ length out.old) }
    ensures { Wrote out.old 0 (rules_page policy.now rules.now) out.new result }
{
    match load::load(policy) {
        Err(r) => page::refusal_page(b"policy refused ", policy, r.number, r.line, out),
        Ok(p) => { put_rules(p.tables, rules, out) }
    }
}
