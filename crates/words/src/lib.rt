// Words of 64 bits as sets of small numbers, and as two halves.

#![tactic(auto)]

ghost use Rattle.std.specs.Prelude.{◌≡◌, cond, ◌+◌, ◌*◌, ◌/◌, ◌%◌, ◌^◌, ◌-◌, ◌<◌};
ghost use Rattle.words.specs.Bits.{is_set, ones_below, half_bits};
ghost use Rattle.words.specs.Sets.{set_bit, clear_bit, Without, meet, include, Least, LeastDropped};

// The bits of a word, and of a half of one.
pub const BITS: u64 = 64;

const HALF: u64 = 32;

// The word with bit `k` set.
pub fn set_bit(m: u64, k: u64) -> u64
    requires { k < 64 }
    ensures { result ≡ set_bit m k }
{
    m | (1 << k)
}

// The value where a test passes, and 0 where it does not: a sum of such takes no branch.
pub fn value_if(v: u64, passes: bool) -> u64
    ensures { result ≡ cond passes v 0 }
{
    if passes { v } else { 0 }
}

// The word with bit `k` set, where a test passes.
pub fn set_bit_if(m: u64, k: u64, passes: bool) -> u64
    requires { k < 64 }
    ensures { result ≡ cond passes (set_bit m k) m }
{
    if passes { set_bit(m, k) } else { m }
}

// The word with bit `k` clear.
pub fn clear_bit(m: u64, k: u64) -> u64
    requires { k < 64 }
    ensures { result ≡ clear_bit m k }
{
    m & !(1 << k)
}

// The bits of `a` that `b` lacks.
pub fn without(a: u64, b: u64) -> u64
    ensures { Without a b result }
{
    a & !b
}

// The word of the `n` lowest bits.
pub fn low_bits(n: u64) -> u64
    requires { n < 64 }
    ensures { result ≡ 2 ^ n - 1 }
{
    (1 << n) - 1
}

// Whether bit `k` is set.
pub fn has_bit(m: u64, k: u64) -> bool
    requires { k < 64 }
    ensures { result ≡ is_set m k }
{
    ((m >> k) & 1) == 1
}

// Whether some bit is set in both words.
pub fn meets(a: u64, b: u64) -> bool
    ensures { result ≡ meet 64 a b }
{
    (a & b) != 0
}

// Whether every bit of `b` is a bit of `a`.
pub fn includes(a: u64, b: u64) -> bool
    ensures { result ≡ include 64 a b }
{
    (a & b) == b
}

// How many bits are set.
pub fn ones(m: u64) -> u64
    ensures { result ≡ ones_below 64 m }
{
    u64::from(m.count_ones())
}

// The least bit that is set.
pub fn least(m: u64) -> u64
    requires { 0 < m }
    ensures { Least 64 m result }
{
    u64::from(m.trailing_zeros())
}

// The word without its least set bit.
pub fn drop_least(m: u64) -> u64
    requires { 0 < m }
    ensures { LeastDropped 64 m result }
{
    m & (m - 1)
}

// The word of a low and a high half.
pub fn join(low: u64, high: u64) -> u64
    requires { (low < 2 ^ half_bits) × (high < 2 ^ half_bits) }
    ensures { result ≡ low + 2 ^ half_bits * high }
{
    low | (high << HALF)
}

// The low half of a word.
pub fn low_half(w: u64) -> u64
    ensures { result ≡ w % 2 ^ half_bits }
{
    w & 0xffff_ffff
}

// The high half of a word.
pub fn high_half(w: u64) -> u64
    ensures { result ≡ w / 2 ^ half_bits }
{
    w >> HALF
}
