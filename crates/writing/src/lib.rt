// Bytes and numerals written to a buffer, one behind the other: each function takes the place to write at and gives the next.

#![tactic(auto)]

ghost use Rattle.std.specs.Prelude.{◌≡◌, [], ◌∷◌, ◌++◌, ◌+◌, ◌≤◌, ◌<◌, length, set};
ghost use Rattle.text.specs.Print.{decimal};
ghost use Rattle.writing.specs.Wrote.{most_field_bytes, Wrote};

// One byte.
pub fn put_byte(out: &mut [u8], at: usize, b: u8) -> usize
    requires { at < length out.old }
    ensures { (out.new ≡ set out.old at b) × (result ≡ at + 1) }
{
    out[at] = b;
    at + 1
}

// All bytes of a slice, from its first on. Not by `copy_from_slice`: compilers make a call of `memmove` of it, and of the functions on memory
// that come from outside `memcpy` and `memset` are to do.
pub fn put_bytes(out: &mut [u8], at: usize, bytes: &[u8]) -> usize
    requires { at + length bytes.now ≤ length out.old }
    ensures { Wrote out.old at bytes.now out.new result }
{
    let mut to = at;
    for b in bytes {
        to = put_byte(out, to, *b);
    }
    to
}

// The digits of a number, without a leading zero.
fn put_decimal(out: &mut [u8], at: usize, n: u64) -> usize
    requires { at + length (decimal n) ≤ length out.old }
    ensures { Wrote out.old at (decimal n) out.new result }
{
    if n < 10 {
        return put_byte(out, at, b'0' + n as u8);
    }
    let to = put_decimal(out, at, n / 10);
    put_byte(out, to, b'0' + (n % 10) as u8)
}

// The same; most numbers have one digit, and need no function that calls itself.
pub fn put_number(out: &mut [u8], at: usize, n: u64) -> usize
    requires { at + length (decimal n) ≤ length out.old }
    ensures { Wrote out.old at (decimal n) out.new result }
{
    if n < 10 {
        return put_byte(out, at, b'0' + n as u8);
    }
    put_decimal(out, at, n)
}

// A number and the byte that ends its field.
pub fn put_field(out: &mut [u8], at: usize, n: u64, end: u8) -> usize
    requires { at + most_field_bytes ≤ length out.old }
    ensures { Wrote out.old at (decimal n ++ end ∷ []) out.new result × (result ≤ at + most_field_bytes) }
{
    let to = put_number(out, at, n);
    put_byte(out, to, end)
}
