// The mode `compare`: whether one label is at or below another. It looks at no policy.

#![tactic(auto)]

ghost use Rattle.std.specs.Prelude.{◌≤◌, length};
ghost use Rattle.writing.specs.Wrote.{Wrote};
ghost use Rattle.page.specs.Sizes.{most_page};
ghost use Rattle.mode_compare.specs.Compare.{answer, compared_with, compare_page};

use text::Numeral;

fn put_answer(out: &mut [u8], below: bool) -> usize
    requires { most_page ≤ length out.old }
    ensures { Wrote out.old 0 (answer below) out.new result }
{
    if below {
        return writing::put_bytes(out, 0, b"yes\n");
    }
    writing::put_bytes(out, 0, b"no\n")
}

// The page for the word x and an argument.
fn compare_with(x: u64, y: &[u8], out: &mut [u8]) -> usize
    requires { most_page ≤ length out.old }
    ensures { Wrote out.old 0 (compared_with x y.now) out.new result }
{
    match text::read_numeral(y) {
        Numeral::Malformed => page::refusal_page(b"refused ", y, 1, 0, out),
        Numeral::Large => page::refusal_page(b"refused ", y, 2, 0, out),
        Numeral::Value(value) => put_answer(out, desk::compare_labels(x, value)),
    }
}

// The page for two arguments, the first looked at first.
pub fn compare_page(x: &[u8], y: &[u8], out: &mut [u8]) -> usize
    requires { most_page ≤ length out.old }
    ensures { Wrote out.old 0 (compare_page x.now y.now) out.new result }
{
    match text::read_numeral(x) {
        Numeral::Malformed => page::refusal_page(b"refused ", x, 1, 0, out),
        Numeral::Large => page::refusal_page(b"refused ", x, 2, 0, out),
        Numeral::Value(value) => compare_with(value, y, out),
    }
}
