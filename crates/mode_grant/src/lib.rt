// The mode `grant`: the fewest views that make a partition settle a query, by their numbers and their own text.

#![tactic(auto)]

ghost use Rattle.std.specs.Prelude.{◌≤◌, length};
ghost use Rattle.model.specs.Limits.{most_views};
ghost use Rattle.validity.specs.Loadable.{Loadable};
ghost use Rattle.writing.specs.Wrote.{Wrote};
ghost use Rattle.page.specs.Sizes.{most_page};
ghost use Rattle.view_texts.specs.ViewTexts.{InRange};
ghost use Rattle.mode_grant.specs.GrantPage.{grant_lines, GrantUnder, GrantPage, Writes};

use model::{MOST_VIEWS, Policy, Refusal};

// The views to add, and their text; none where the partition settles the query.
fn put_grant(out: &mut [u8], p: Policy, numbers: &[u32]) -> usize
    requires { (length numbers.now ≤ most_views) × InRange numbers.now × (most_page ≤ length out.old) }
    ensures { (l : Loadable p)
        → Wrote out.old 0 (grant_lines l.declared.views numbers.now) out.new result }
{
    if numbers.len() == 0 {
        return writing::put_bytes(out, 0, b"settled\n");
    }
    view_texts::put_list(out, 0, b"add", p, numbers)
}

// The page for a partition and a query text under a policy that was loaded.
fn grant_under(p: Policy, n: u64, query: &[u8], out: &mut [u8]) -> usize
    requires { Loadable p × (most_page ≤ length out.old) }
    ensures { (l : Loadable p)
        → Writes (GrantUnder l.declared n query.now) out.old out.new result }
{
    let mut cells = [0; MOST_VIEWS];
    match grants::smallest_grant(p, n, query, &mut cells) {
        Ok(Some(count)) => put_grant(out, p, &cells[..count]),
        Ok(None) => writing::put_bytes(out, 0, b"none\n"),
        Err(Refusal { number, line }) => page::refusal_page(b"refused ", query, number, line, out),
    }
}

// The page for a policy text, a partition's number and a query text.
pub fn grant_page(policy: &[u8], n: u64, query: &[u8], out: &mut [u8]) -> usize
    requires { most_page ≤ length out.old }
    ensures { Writes (GrantPage policy.now n query.now) out.old out.new result }
{
    match load::load(policy) {
        Err(r) => page::refusal_page(b"policy refused ", policy, r.number, r.line, out),
        Ok(p) => grant_under(p, n, query, out),
    }
}
