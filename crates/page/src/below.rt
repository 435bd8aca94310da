// A line of a text, printed below what is said of it.

ghost use Rattle.std.specs.Prelude.{◌≡◌, ◌+◌, ◌≤◌, length};
ghost use Rattle.writing.specs.Wrote.{Wrote};
ghost use Rattle.page.specs.Sizes.{most_around};
ghost use Rattle.page.specs.Refusal.{indented, line_below};

// Bytes behind two spaces, and the end of the line.
pub fn put_indented(out: &mut [u8], at: usize, bytes: &[u8]) -> usize
    requires { at + length bytes.now + most_around ≤ length out.old }
    ensures { Wrote out.old at (indented bytes.now) out.new result }
{
    let a = writing::put_bytes(out, at, b"  ");
    let b = writing::put_bytes(out, a, bytes);
    writing::put_byte(out, b, b'\n')
}

// The line of a number, from 1 on, if the text has it.
pub fn put_below(out: &mut [u8], start: usize, text: &[u8], line: u64) -> usize
    requires { (line ≡ 0 → ⊥) → start + length text.now + most_around ≤ length out.old }
    ensures { Wrote out.old start (line_below text.now line) out.new result }
{
    if line == 0 {
        return start;
    }
    let mut left = line;
    for piece in text.split_inclusive(|b| *b == b'\n') {
        if left == 1 {
            return put_indented(out, start, piece.strip_suffix(b"\n").unwrap_or(piece));
        }
        left -= 1;
    }
    start
}
