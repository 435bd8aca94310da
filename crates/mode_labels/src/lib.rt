// The mode `labels`: the labels of a query, a line for each.

#![tactic(auto)]

ghost use Rattle.std.specs.Prelude.{◌+◌, ◌≤◌, length};
ghost use Rattle.model.specs.Limits.{most_lines};
ghost use Rattle.validity.specs.Loadable.{Loadable};
ghost use Rattle.writing.specs.Wrote.{Wrote};
ghost use Rattle.page.specs.Sizes.{most_page};
ghost use Rattle.mode_labels.specs.LabelLines.{most_label, label_line, label_lines, labels_under, labels_page};

use model::{MOST_LINES, Policy, Refusal};

// A label: its word, its table and its views.
fn put_label(out: &mut [u8], at: usize, w: u64) -> usize
    requires { at + most_label ≤ length out.old }
    ensures { Wrote out.old at (label_line w) out.new result × (result ≤ at + most_label) }
{
    let v = page::views_of(words::high_half(w));
    let a = writing::put_bytes(out, at, b"label");
    let b = page::put_spaced(out, a, w);
    let c = writing::put_bytes(out, b, b" table");
    let d = page::put_spaced(out, c, words::low_half(w));
    let e = writing::put_bytes(out, d, b" views");
    let f = page::put_numbers(out, e, &v.numbers[..v.count]);
    writing::put_byte(out, f, b'\n')
}

// Labels, each in its line.
fn put_labels(out: &mut [u8], labels: &[u64]) -> usize
    requires { (length labels.now ≤ most_lines) × (most_page ≤ length out.old) }
    ensures { Wrote out.old 0 (label_lines labels.now) out.new result }
{
    let mut to = 0;
    for w in labels {
        to = put_label(out, to, *w);
    }
    to
}

// The page for a query text under a policy that was loaded.
fn labels_under(p: Policy, query: &[u8], out: &mut [u8]) -> usize
    requires { Loadable p × (most_page ≤ length out.old) }
    ensures { (l : Loadable p) → Wrote out.old 0 (labels_under l.declared query.now) out.new result }
{
    let mut cells = [0; MOST_LINES];
    match desk::labels(p, query, &mut cells) {
        Ok(count) => put_labels(out, &cells[..count]),
        Err(Refusal { number, line }) => page::refusal_page(b"refused ", query, number, line, out),
    }
}

// The page for a policy text and a query text.
pub fn labels_page(policy: &[u8], query: &[u8], out: &mut [u8]) -> usize
    requires { most_page ≤ length out.old }
    ensures { Wrote out.old 0 (labels_page policy.now query.now) out.new result }
{
    match load::load(policy) {
        Err(r) => page::refusal_page(b"policy refused ", policy, r.number, r.line, out),
        Ok(p) => labels_under(p, query, out),
    }
}
