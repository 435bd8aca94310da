// The input of a run, cut into query texts.

#![tactic(auto)]

ghost use Rattle.std.specs.Prelude.{◌≡◌, ◌&&◌, ◌<◌, ltb, length};
ghost use Rattle.text.specs.Names.{table_terms};
ghost use Rattle.text.specs.Lines.{same_bytes};
ghost use Rattle.cutting.specs.NextCut.{NextCut};

// Whether a query starts at this line: the first line is part of the first query, whatever it says.
#[tactic(auto, unfolding(text::specs::Names::table_terms))]
fn is_cut(at: usize, line: &[u8]) -> bool
    ensures { result ≡ (ltb 0 at && same_bytes line.now table_terms) }
{
    at != 0 && text::same(line, &text::TABLE_TERMS)
}

// The place where the second query text starts, or the length of the input where there is one only. Lines are not counted here.
// Places are, and not by a `for` over the lines: a last line that lacks its end has a return of its own, which `tail_starts_a_query` turns.
pub fn next_cut(input: &[u8]) -> usize
    requires { 0 < length input.now }
    ensures { NextCut input.now result }
{
    let mut at = 0;
    while at < input.len() {
        let rest = &input[at..];
        let next = text::next_line(rest, 1);
        if rest.len() < next.at {
            return input.len();
        }
        if is_cut(at, &rest[..next.at - 1]) {
            return at;
        }
        at = at + next.at;
    }
    at
}
