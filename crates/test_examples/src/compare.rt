// An output compared with the one expected.

ghost use Rattle.std.specs.Prelude.{◌≤◌, length};

// How many bytes at the front of both are the same.
fn agreeing(a: &[u8], b: &[u8]) -> usize
    ensures { result ≤ length a.now }
{
    a.iter().zip(b).take_while(|(x, y)| x == y).count()
}

// The number of the line behind these bytes, the first line 1.
fn next_line(s: &[u8]) -> u64 {
    s.iter().filter(|b| **b == b'\n').count() as u64 + 1
}

// Says where an output first differs from the one expected, if it does.
pub fn compare(name: &[u8], got: &[u8], expected: &[u8]) {
    let n = agreeing(got, expected);
    if n < got.len() || n < expected.len() {
        io::write_all(1, name);
        io::write_all(1, b": line ");
        io::print_decimal(1, next_line(&got[..n]));
        io::write_all(1, b" of the output differs\n");
    }
}
