// Views by their numbers.

ghost use Rattle.std.specs.Prelude.{◌≡◌, ◌+◌, ◌*◌, ◌≤◌, length, ◌∷◌};
ghost use Rattle.text.specs.Lines.{space};
ghost use Rattle.text.specs.Print.{decimal};
ghost use Rattle.writing.specs.Wrote.{most_field_bytes, Wrote};
ghost use Rattle.page.specs.Numbers.{spaced_numbers, HoldsViews};

use model::MOST_VIEWS;

// The numbers of views, 0 behind the last.
#[derive(Clone, Copy)]
pub struct ViewNumbers {
    pub count: usize,
    pub numbers: [u32; MOST_VIEWS],
}

// The views of a word, view n at bit n - 1.
pub fn views_of(word: u64) -> ViewNumbers
    ensures { HoldsViews word result }
{
    let mut numbers = [0; MOST_VIEWS];
    let mut count = 0;
    for k in 0..MOST_VIEWS {
        if words::has_bit(word, k as u64) {
            numbers[count] = k as u32 + 1;
            count += 1;
        }
    }
    ViewNumbers { count, numbers }
}

// A space, and a number behind it.
pub fn put_spaced(out: &mut [u8], at: usize, n: u64) -> usize
    requires { at + most_field_bytes ≤ length out.old }
    ensures { Wrote out.old at (space ∷ decimal n) out.new result × (result ≤ at + most_field_bytes) }
{
    let a = writing::put_byte(out, at, b' ');
    writing::put_number(out, a, n)
}

// Numbers, each behind a space.
pub fn put_numbers(out: &mut [u8], start: usize, numbers: &[u32]) -> usize
    requires { start + length numbers.now * most_field_bytes ≤ length out.old }
    ensures wrote { Wrote out.old start (spaced_numbers numbers.now) out.new result }
    ensures upper_bound { result ≤ start + length numbers.now * most_field_bytes }
{
    let mut to = start;
    for n in numbers {
        to = put_spaced(out, to, u64::from(*n));
    }
    to
}
