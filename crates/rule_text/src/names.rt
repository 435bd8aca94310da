// The bytes that stand before a piece, and names.

ghost use Rattle.std.specs.Prelude.{◌≡◌, ◌<◌};
ghost use Rattle.rule_text.specs.Keys.{name_value};

// The letters of the alphabet.
const LETTERS: u8 = 26;

// The most bytes of a name: a letter and three digits.
const MOST_NAME: usize = 4;

// What stands before the first term of an atom and the first name of a head, and before each other.
pub const BRACKET: &[u8] = b"(";

pub const SPACE: &[u8] = b" ";

// The key of a name with one of the letters from this one on.
pub fn read_name(field: &[u8], letters: u8) -> Option<u64>
    requires { letters < 128 }
    ensures { result ≡ name_value letters field.now }
{
    let (first, digits) = field.split_first()?;
    if MOST_NAME < field.len() {
        return None;
    }
    if *first < letters {
        return None;
    }
    if letters + LETTERS <= *first {
        return None;
    }
    let mut key: u64 = 0;
    for c in digits.iter().rev() {
        if !c.is_ascii_digit() {
            return None;
        }
        key = key * 256 + *c as u64;
    }
    Some(key * 256 + *first as u64)
}
