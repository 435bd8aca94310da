// The text of the query that a rule becomes.

ghost use Rattle.std.specs.Prelude.{◌≡◌, ◌<◌, ◌≤◌, ◌^◌, length, IfOk};
ghost use Rattle.import.specs.Translating.{text_room, NamedLines, QueryPut, first_of, PartsTranslated, Translates};

use model::{Query, Tables};
use rule_body::Head;

// Room for the text of any query that a rule becomes.
pub const TEXT_ROOM: usize = 2048;

// What ends a rule.
const RULE_END: &[u8] = b")\n";

// The number of what turns a rule back.
#[derive(Clone, Copy)]
pub struct TurnedBack {
    pub number: u64,
}

// What turns back a text that is no rule.
const MALFORMED: TurnedBack = TurnedBack { number: 1 };

// The names line and the lines of a query, each variable with the place of its key, shown where its bit is set. Where the text ends.
fn put_query(q: Query, keys: &[u64], shown: u64, out: &mut [u8]) -> usize
    requires { NamedLines q keys.now × (length out.old ≡ text_room) }
    ensures query_put { QueryPut q keys.now shown out.new result × (result ≤ text_room) }
    ensures out_len { length out.new ≡ text_room }
{
    let names = writing::put_bytes(out, 0, &text::TABLE_TERMS);
    let mut at = writing::put_byte(out, names, b'\n');
    for line in &q.lines[..q.count] {
        let numbered = numbering::number_line(*line, keys, shown);
        at = printing::put_line(out, at, numbered);
    }
    at
}

// What turns back a rule of this body and this head: the body's 7, 2, 4 and 5, then 11 and 12.
fn first_fault(b: Option<u64>, h: Head) -> Option<u64>
    ensures { result ≡ first_of b h }
{
    if b.is_some() {
        return b;
    }
    if h.missing {
        return Some(11);
    }
    if h.twice {
        return Some(12);
    }
    None
}

// The text of the query that a rule becomes, or the number of what turns the rule back, from its two pieces: the head and the body, each up
// to the bracket that closes it.
fn translate_parts(
    tables: Tables,
    head: &[u8],
    body: &[u8],
    out: &mut [u8],
) -> Result<usize, TurnedBack>
    requires { (length body.now < 2 ^ 32) × (length out.old ≡ text_room) }
    ensures parts_translated { PartsTranslated tables head.now body.now out.new result }
    ensures out_len { (length out.new ≡ text_room) × IfOk result (λ n. n ≤ text_room) }
{
    let Some(b) = rule_body::read_body(tables, body) else {
        return Err(MALFORMED);
    };
    let names = numbering::names_of(b.query);
    let Some(h) = rule_body::read_head(head, names.keys()) else {
        return Err(MALFORMED);
    };
    if let Some(number) = first_fault(b.fault, h) {
        return Err(TurnedBack { number });
    }
    Ok(put_query(b.query, names.keys(), h.shown, out))
}

// The same from the rule's own text.
pub fn translate(tables: Tables, rule: &[u8], out: &mut [u8]) -> Result<usize, TurnedBack>
    requires { (length rule.now < 2 ^ 32) × (length out.old ≡ text_room) }
    ensures translates { Translates tables rule.now out.new result }
    ensures out_len { (length out.new ≡ text_room) × IfOk result (λ n. n ≤ text_room) }
{
    let Some(whole) = rule.strip_suffix(RULE_END) else {
        return Err(MALFORMED);
    };
    let h = text::first(whole, b')');
    if h == whole.len() {
        return Err(MALFORMED);
    }
    translate_parts(tables, &whole[..h], &whole[h + 1..], out)
}
