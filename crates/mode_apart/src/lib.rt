// The mode `apart`: rows on which the views of a partition agree whether the odd one is there or not, and a query does not.

#![tactic(auto)]

mod rows;

ghost use Rattle.std.specs.Prelude.{◌≤◌, length};
ghost use Rattle.validity.specs.Loadable.{Loadable};
ghost use Rattle.page.specs.Sizes.{most_page};
ghost use Rattle.mode_grant.specs.GrantPage.{Writes};
ghost use Rattle.mode_apart.specs.ApartPage.{ApartUnder, ApartPage};

use apart::{MOST_CELLS, Telling};
use freezing::ROW_CELLS;
use model::{Policy, Refusal};

// The page for a partition and a query text under a policy that was loaded.
fn apart_under(p: Policy, n: u64, query: &[u8], out: &mut [u8]) -> usize
    requires { Loadable p × (most_page ≤ length out.old) }
    ensures { (l : Loadable p)
        → Writes (ApartUnder l.declared n query.now) out.old out.new result }
{
    let mut cells = [0; MOST_CELLS];
    match apart::tell_apart(p, n, query, &mut cells) {
        Ok(Telling::Settled) => writing::put_bytes(out, 0, b"settled\n"),
        Ok(Telling::Apart { rows }) => {
            let end = rows * ROW_CELLS;
            rows::put_apart(out, p.tables, &cells[..end])
        }
        Err(Refusal { number, line }) => page::refusal_page(b"refused ", query, number, line, out),
    }
}

// The page for a policy text, a partition's number and a query text.
pub fn apart_page(policy: &[u8], n: u64, query: &[u8], out: &mut [u8]) -> usize
    requires { most_page ≤ length out.old }
    ensures { Writes (ApartPage policy.now n query.now) out.old out.new result }
{
    match load::load(policy) {
        Err(r) => page::refusal_page(b"policy refused ", policy, r.number, r.line, out),
        Ok(p) => apart_under(p, n, query, out),
    }
}
