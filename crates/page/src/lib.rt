// What the pages of the modes have in common: room, a refusal with the line at fault below it, and views by their numbers.

#![tactic(auto)]

mod below;
mod views;

ghost use Rattle.std.specs.Prelude.{◌≡◌, ◌≤◌, length};
ghost use Rattle.writing.specs.Wrote.{Wrote};
ghost use Rattle.page.specs.Sizes.{most_page, most_said, Shown};
ghost use Rattle.page.specs.Refusal.{refusal};

pub use below::put_indented;
pub use views::{ViewNumbers, put_numbers, put_spaced, views_of};

// Room for any page.
pub const MOST_PAGE: usize = 65536;

pub fn page_room() -> [u8; MOST_PAGE]
    ensures { most_page ≡ length result }
{
    [0; MOST_PAGE]
}

// The page of a refusal: what is said, its number and its line, and below them the line of the text at fault.
pub fn refusal_page(said: &[u8], text: &[u8], number: u64, line: u64, out: &mut [u8]) -> usize
    requires { (length said.now ≤ most_said) × (most_page ≤ length out.old) × Shown text.now line }
    ensures { Wrote out.old 0 (refusal said.now text.now number line) out.new result }
{
    let a = writing::put_bytes(out, 0, said);
    let b = writing::put_field(out, a, number, b' ');
    let c = writing::put_field(out, b, line, b'\n');
    below::put_below(out, c, text, line)
}
