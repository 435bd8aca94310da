// Request 3's operation.

ghost use Rattle.std.specs.Prelude.{◌≤◌, length};
ghost use Rattle.import.specs.Import.{said_import, ImportGiven, TextGiven, RuleGiven};

use crate::translating::{TEXT_ROOM, translate};
use model::{Policy, Refusal, Tables};

// The most bytes of a rule.
const MOST_BYTES: usize = 4096;

// A text written from a place of the buffer on, if there is room, and how many bytes it has.
fn put_text(text: &[u8], out: &mut [u8], place: usize) -> Result<usize, Refusal>
    ensures text_given { TextGiven text.now place out.old result out.new }
    ensures result_in_bounds { (said_import result).bytes ≤ length out.old }
{
    let n = text.len();
    if out.len() < place {
        return Err(Refusal {
            number: 10,
            line: 0,
        });
    }
    if out.len() - place < n {
        return Err(Refusal {
            number: 10,
            line: 0,
        });
    }
    writing::put_bytes(&mut out[place..], 0, text);
    Ok(n)
}

// A rule under the tables of a policy that was checked before: its query text, written from a place of the buffer on, and how many bytes it
// has.
pub fn import_checked(
    tables: Tables,
    rule: &[u8],
    out: &mut [u8],
    place: usize,
) -> Result<usize, Refusal>
    ensures rule_given { RuleGiven tables rule.now place out.old result out.new }
    ensures result_in_bounds { (said_import result).bytes ≤ length out.old }
{
    if MOST_BYTES < rule.len() {
        return Err(Refusal { number: 7, line: 0 });
    }
    let mut text = [0; TEXT_ROOM];
    let n = match translate(tables, rule, &mut text) {
        Ok(bytes) => bytes,
        Err(back) => {
            return Err(Refusal {
                number: back.number,
                line: 1,
            });
        }
    };
    put_text(&text[..n], out, place)
}

// The query text of a rule, written from a place of the buffer on, and how many bytes it has; all other bytes stay.
pub fn import_rule(p: Policy, rule: &[u8], out: &mut [u8], place: usize) -> Result<usize, Refusal>
    ensures { ImportGiven p rule.now place out.old result out.new }
{
    if !validity::valid(p) {
        return Err(Refusal { number: 8, line: 0 });
    }
    import_checked(p.tables, rule, out, place)
}
