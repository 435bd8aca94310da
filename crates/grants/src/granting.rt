// The smallest extra grant, written to a lent buffer.

ghost use Rattle.std.specs.Prelude.{◌≡◌, List, ℕ};
ghost use Rattle.word_list.specs.Value.{words_value};
ghost use Rattle.label_lists.specs.HoldsLabels.{HoldsLabels};
ghost use Rattle.grants.specs.Granting.{Written, GrantGiven};
ghost use Rattle.grants.specs.Searching.{SomeLabels, LabelsGranted, SomeNumbers};

use crate::searching::{best_views, lacking_views};
use model::{Policy, Refusal};
use word_list::Words;

// The fewest views that make partition n settle a query text, ascending, and how many they are, or None where no views will do; numbers past
// them stay.
pub fn smallest_grant(
    p: Policy,
    n: u64,
    text: &[u8],
    out: &mut [u32],
) -> Result<Option<usize>, Refusal>
    ensures { GrantGiven p n text.now out.old result out.new }
{
    if !validity::valid(p) {
        return Err(Refusal { number: 8, line: 0 });
    }
    if !model::is_among(n, p.partition_count as u64) {
        return Err(Refusal { number: 4, line: 0 });
    }
    let l = labelling::ask(p, text)?;
    let granted = desk::granted_views(p.grants, n - 1);
    give_grant(l.words, granted, out)
}

// The grant for labels and the granted views of a partition.
fn give_grant(l: Words, granted: u64, out: &mut [u32]) -> Result<Option<usize>, Refusal>
    requires { SomeLabels l }
    ensures { (ws : List ℕ) → HoldsLabels l ws → LabelsGranted granted ws out.old result out.new }
{
    let lacking = lacking_views(l, granted);
    if explain::has_word(lacking, 0) {
        return Ok(None);
    }
    if lacking.count == 0 {
        return Ok(Some(0));
    }
    let best = best_views(lacking);
    give_numbers(best, out)
}

// The numbers of views at the head of the buffer, or 10.
fn give_numbers(l: Words, out: &mut [u32]) -> Result<Option<usize>, Refusal>
    requires { SomeNumbers l }
    ensures { (ns : List ℕ) → l ≡ words_value ns → Written result out.old out.new ns }
{
    let count = l.count;
    if out.len() < count {
        return Err(Refusal {
            number: 10,
            line: 0,
        });
    }
    let numbers = l.words;
    desk::write_words(numbers, count, out);
    Ok(Some(count))
}
