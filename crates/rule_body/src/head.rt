// The head of a rule: which of the body's names it shows.

ghost use Rattle.std.specs.Prelude.{◌≡◌, ◌<◌, ◌≤◌, ◌^◌, length, IfSome, MatchOption};
ghost use Rattle.std.proofs.Math.Option.{none};
ghost use Rattle.rules.specs.Text.{head_names};
ghost use Rattle.numbering.specs.Names.{most_names};
ghost use Rattle.rule_body.specs.Head.{NameBehind, NamesRead, Headless, HeadRead};

use numbering::place_of;
use rule_text::{BRACKET, SPACE, read_name};

// Whether the head names a variable that the body lacks, and names one twice; the numbers of those that it names, as bits.
#[derive(Clone, Copy)]
pub struct Head {
    pub missing: bool,
    pub twice: bool,
    pub shown: u64,
}

// The head with one name more, which has this place among those of the body.
fn with_name(h: Head, place: Option<usize>) -> Head
    requires { IfSome place (λ n. n < most_names) }
    ensures { NameBehind h place result }
{
    let mut r = h;
    let Some(n) = place else {
        r.missing = true;
        return r;
    };
    let bit = n as u64;
    if words::has_bit(h.shown, bit) {
        r.twice = true;
        return r;
    }
    r.shown = words::set_bit(h.shown, bit);
    r
}

// The names of a head from the bracket before them on: `(x, y`.
fn read_names(s: &[u8], keys: &[u64]) -> Option<Head>
    requires { length keys.now ≤ most_names }
    ensures { MatchOption result (head_names s.now ≡ none) (NamesRead s.now keys.now) }
{
    let mut h = Head {
        missing: false,
        twice: false,
        shown: 0,
    };
    if s == BRACKET {
        return Some(h);
    }
    let mut lead = BRACKET;
    for piece in s.split(|c| *c == b',') {
        let key = read_name(piece.strip_prefix(lead)?, b'a')?;
        h = with_name(h, place_of(keys, key));
        lead = SPACE;
    }
    Some(h)
}

// The head up to the bracket that closes it: `Q1(x, y`.
pub fn read_head(piece: &[u8], keys: &[u64]) -> Option<Head>
    requires { length keys.now ≤ most_names }
    ensures { MatchOption result (Headless piece.now) (HeadRead piece.now keys.now) }
{
    let n = text::first(piece, b'(');
    read_name(&piece[..n], b'A')?;
    read_names(&piece[n..], keys)
}
