// The mode `explain`: why a partition settles a query or not, by views and their own text.

#![tactic(auto)]

ghost use Rattle.std.specs.Prelude.{◌+◌, ◌≤◌, length};
ghost use Rattle.model.specs.Limits.{most_lines};
ghost use Rattle.validity.specs.Loadable.{Loadable};
ghost use Rattle.writing.specs.Wrote.{Wrote};
ghost use Rattle.page.specs.Sizes.{most_page};
ghost use Rattle.mode_explain.specs.ExplainPage.{most_word, most_first, WordPut, WordsPut, explanation, explain_under, explain_page};

use model::{MOST_LINES, Policy, Refusal};

// A word of an explanation: its views, and their text below.
fn put_word(out: &mut [u8], at: usize, p: Policy, word: u32) -> usize
    requires { at + most_word ≤ length out.old }
    ensures { WordPut p word out.old at out.new result × (result ≤ at + most_word) }
{
    let v = page::views_of(u64::from(word));
    if v.count == 0 {
        return writing::put_bytes(out, at, b"views none\n");
    }
    view_texts::put_list(out, at, b"views", p, &v.numbers[..v.count])
}

// The words, one below the other.
fn put_words(out: &mut [u8], start: usize, p: Policy, words: &[u32]) -> usize
    requires { (start ≤ most_first) × (length words.now ≤ most_lines) × (most_page ≤ length out.old) }
    ensures { WordsPut p words.now out.old start out.new result }
{
    let mut to = start;
    for word in words {
        to = put_word(out, to, p, *word);
    }
    to
}

// An explanation of so many words.
fn put_explanation(out: &mut [u8], settled: bool, p: Policy, words: &[u32]) -> usize
    requires { (length words.now ≤ most_lines) × (most_page ≤ length out.old) × Loadable p }
    ensures { (l : Loadable p)
        → Wrote out.old 0 (explanation l.declared.views settled words.now) out.new result }
{
    let said: &[u8] = if settled {
        b"settled\n"
    } else {
        b"not settled\n"
    };
    let a = writing::put_bytes(out, 0, said);
    put_words(out, a, p, words)
}

// The page for a partition and a query text under a policy that was loaded.
fn explain_under(p: Policy, n: u64, query: &[u8], out: &mut [u8]) -> usize
    requires { Loadable p × (most_page ≤ length out.old) }
    ensures { (l : Loadable p)
        → Wrote out.old 0 (explain_under l.declared n query.now) out.new result }
{
    let mut cells = [0; MOST_LINES];
    match desk::explain(p, n, query, &mut cells) {
        Ok(e) => put_explanation(out, e.is_settled, p, &cells[..e.count]),
        Err(Refusal { number, line }) => page::refusal_page(b"refused ", query, number, line, out),
    }
}

// The page for a policy text, a partition's number and a query text.
pub fn explain_page(policy: &[u8], n: u64, query: &[u8], out: &mut [u8]) -> usize
    requires { most_page ≤ length out.old }
    ensures { Wrote out.old 0 (explain_page policy.now n query.now) out.new result }
{
    match load::load(policy) {
        Err(r) => page::refusal_page(b"policy refused ", policy, r.number, r.line, out),
        Ok(p) => explain_under(p, n, query, out),
    }
}
