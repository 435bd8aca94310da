// Bytes as one number, the first lowest.

#![tactic(auto)]

ghost use Rattle.std.specs.Prelude.{◌≡◌, ◌+◌, ◌≤◌, length};
ghost use Rattle.little_endian.specs.LittleEndian.{little_endian, eight_at};

// The eight bytes from a place on as one number, the first lowest. Of a sum as flat as this compilers make one load.
pub fn word_at(s: &[u8], at: usize) -> u64
    requires { at + 8 ≤ length s.now }
    ensures { result ≡ little_endian (eight_at s.now at) }
{
    let a = u64::from(s[at]);
    let b = u64::from(s[at + 1]);
    let c = u64::from(s[at + 2]);
    let d = u64::from(s[at + 3]);
    let e = u64::from(s[at + 4]);
    let f = u64::from(s[at + 5]);
    let g = u64::from(s[at + 6]);
    let h = u64::from(s[at + 7]);
    a + b * 0x100
        + c * 0x1_0000
        + d * 0x100_0000
        + e * 0x1_0000_0000
        + f * 0x100_0000_0000
        + g * 0x1_0000_0000_0000
        + h * 0x100_0000_0000_0000
}
