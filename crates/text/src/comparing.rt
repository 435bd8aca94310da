// Lines compared by words of eight bytes.

ghost use Rattle.std.specs.Prelude.{◌≡◌, length, drop};
ghost use Rattle.text.specs.Lines.{same_bytes};

// How many bytes a word has.
const WORD: usize = 8;

// Whether two lines of one length have the same bytes from a place on, compared singly. Not by `==`, which compares several bytes at once.
fn same_from<'a>(a: &'a [u8], b: &'a [u8], from: usize) -> bool
    requires { length a.now ≡ length b.now }
    ensures { result ≡ same_bytes (drop from a.now) (drop from b.now) }
{
    for i in from..a.len() {
        if a[i] != b[i] {
            return false;
        }
    }
    true
}

// Whether two lines have the same bytes: word by word, and what is no whole word singly. Not by one `==`: the words are asked for, and
// `word_compared_with_itself` and four edits more turn them.
pub fn same<'a>(a: &'a [u8], b: &'a [u8]) -> bool
    ensures { result ≡ same_bytes a.now b.now }
{
    let n = a.len();
    if n != b.len() {
        return false;
    }
    for k in 0..n / WORD {
        let at = k * WORD;
        if little_endian::word_at(a, at) != little_endian::word_at(b, at) {
            return false;
        }
    }
    same_from(a, b, n / WORD * WORD)
}
