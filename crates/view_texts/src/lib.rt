// Views by their numbers, and their own text as in the policy below them.

#![tactic(auto)]

ghost use Rattle.std.specs.Prelude.{◌≡◌, ◌+◌, ◌*◌, ◌≤◌, length};
ghost use Rattle.view_texts.specs.ViewTexts.{most_view_text, most_list, most_title, InRange, ViewPut, ViewsPut, ListPut};

use model::{Line, Policy};

// A view's number and text, behind two spaces.
fn put_view(out: &mut [u8], at: usize, n: u64, view: Line) -> usize
    requires { at + most_view_text ≤ length out.old }
    ensures { ViewPut n view out.old at out.new result × (result ≤ at + most_view_text) }
{
    let a = writing::put_bytes(out, at, b"  ");
    let b = writing::put_field(out, a, n, b' ');
    printing::put_line(out, b, view)
}

// The text of each of some views.
fn put_views(out: &mut [u8], start: usize, p: Policy, numbers: &[u32]) -> usize
    requires { (start + length numbers.now * most_view_text ≤ length out.old) × InRange numbers.now }
    ensures views_put { ViewsPut p numbers.now out.old start out.new result }
    ensures upper_bound { result ≤ start + length numbers.now * most_view_text }
{
    let mut to = start;
    for n in numbers {
        let k = *n as usize - 1;
        let view = p.views[k];
        to = put_view(out, to, u64::from(*n), view);
    }
    to
}

// What is said of some views, their numbers in its line, and below it their text.
pub fn put_list(out: &mut [u8], at: usize, said: &[u8], p: Policy, numbers: &[u32]) -> usize
    requires { (length said.now ≤ most_title) × (at + most_list (length numbers.now) ≤ length out.old) × InRange numbers.now }
    ensures list_put { ListPut said.now p numbers.now out.old at out.new result }
    ensures upper_bound { (result ≤ at + most_list (length numbers.now)) × (length out.new ≡ length out.old) }
{
    let a = writing::put_bytes(out, at, said);
    let b = page::put_numbers(out, a, numbers);
    let c = writing::put_byte(out, b, b'\n');
    put_views(out, c, p, numbers)
}
