// A rule that is turned back.

ghost use Rattle.std.specs.Prelude.{◌+◌, ◌≤◌, length};
ghost use Rattle.writing.specs.Wrote.{Wrote};
ghost use Rattle.mode_rules.specs.Sizes.{most_turned};
ghost use Rattle.mode_rules.specs.RulesPage.{rule_refused};

// The rule's number, the refusal's number and its line, and below them the rule.
pub fn put_turned(out: &mut [u8], at: usize, k: u64, shown: &[u8], number: u64, line: u64) -> usize
    requires { at + length shown.now + most_turned ≤ length out.old }
    ensures { Wrote out.old at (rule_refused k shown.now number line) out.new result }
{
    let a = writing::put_bytes(out, at, b"rule ");
    let b = writing::put_field(out, a, k, b' ');
    let c = writing::put_bytes(out, b, b"refused ");
    let d = writing::put_field(out, c, number, b' ');
    let e = writing::put_field(out, d, line, b'\n');
    page::put_indented(out, e, shown)
}
