// The mode `check`: a policy alone.

#![tactic(auto)]

ghost use Rattle.std.specs.Prelude.{[], ◌∷◌, ◌≤◌, length};
ghost use Rattle.writing.specs.Wrote.{Wrote};
ghost use Rattle.page.specs.Sizes.{most_page};
ghost use Rattle.mode_check.specs.Check.{counted, check_page};

// What is said of an accepted policy: how many tables, views and partitions it has.
fn put_counts(out: &mut [u8], tables: u64, views: u64, partitions: u64) -> usize
    requires { most_page ≤ length out.old }
    ensures { Wrote out.old 0 (counted (tables ∷ views ∷ partitions ∷ [])) out.new result }
{
    let a = writing::put_bytes(out, 0, b"policy accepted");
    let b = page::put_spaced(out, a, tables);
    let c = page::put_spaced(out, b, views);
    let d = page::put_spaced(out, c, partitions);
    writing::put_byte(out, d, b'\n')
}

// The page for a policy text.
pub fn check_page(policy: &[u8], out: &mut [u8]) -> usize
    requires { most_page ≤ length out.old }
    ensures { Wrote out.old 0 (check_page policy.now) out.new result }
{
    match load::load(policy) {
        Err(r) => page::refusal_page(b"policy refused ", policy, r.number, r.line, out),
        Ok(p) => {
            let tables = p.tables;
            put_counts(
                out,
                tables.count as u64,
                p.view_count as u64,
                p.partition_count as u64,
            )
        }
    }
}
