// Atoms: a table and its terms.

ghost use Rattle.std.specs.Prelude.{◌≡◌, ◌<◌, ◌^◌, length};
ghost use Rattle.rules.specs.Text.{atom_of};
ghost use Rattle.rule_text.specs.Atoms.{table_numeral, atom_value};

use crate::args::{Atom, Unreadable, read_args};
use model::MOST_TABLES;
use text::Numeral;

// What stands behind the `T` of a table.
fn read_table(field: &[u8]) -> Numeral
    ensures { result ≡ table_numeral field.now }
{
    match field.strip_prefix(b"T") {
        None => Numeral::Malformed,
        Some(digits) => text::read_numeral(digits),
    }
}

// An atom up to the bracket that closes it: `T1(x, y, z`.
pub fn read_atom(piece: &[u8]) -> Result<Atom, Unreadable>
    requires { length piece.now < 2 ^ 32 }
    ensures { result ≡ atom_value (atom_of piece.now) }
{
    let n = text::first(piece, b'(');
    let number = read_table(&piece[..n]);
    if let Numeral::Malformed = number {
        return Err(Unreadable::Malformed);
    }
    let mut a = read_args(&piece[n..])?;
    a.table = model::up_to(number, MOST_TABLES as u64);
    if a.table == 0 {
        return Err(Unreadable::Outside);
    }
    Ok(a)
}
