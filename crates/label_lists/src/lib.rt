// The labels of a query, written to a lent buffer.

#![tactic(auto)]

ghost use Rattle.std.specs.Prelude.{◌≡◌, List, ◌++◌, ℕ, ◌≤◌, length, take, drop};
ghost use Rattle.model.specs.Limits.{most_lines};
ghost use Rattle.word_list.specs.Value.{words_value};
ghost use Rattle.label_lists.specs.Listing.{LabelsGiven, Lists, listed};

use model::{MOST_LINES, Policy, Refusal};
use word_list::Words;

// The labels of a query text, ascending, and how many there are; numbers past them stay.
pub fn labels(p: Policy, text: &[u8], out: &mut [u64]) -> Result<usize, Refusal>
    ensures { LabelsGiven p text.now out.old result out.new }
{
    if !validity::valid(p) {
        return Err(Refusal { number: 8, line: 0 });
    }
    let l = labelling::ask(p, text)?;
    let w = word_list::ascending(l.words);
    give_labels(w, out)
}

// The labels at the head of the buffer, and how many there are, or 10.
fn give_labels(l: Words, out: &mut [u64]) -> Result<usize, Refusal>
    requires { l.count ≤ most_lines }
    ensures { (ws : List ℕ) → l ≡ words_value ws → Lists result out.new (listed out.old ws) }
{
    let count = l.count;
    if out.len() < count {
        return Err(Refusal {
            number: 10,
            line: 0,
        });
    }
    let words = l.words;
    copy_words(words, count, out);
    Ok(count)
}

// The first words at the head of the buffer; numbers past them stay.
fn copy_words(words: [u64; MOST_LINES], count: usize, out: &mut [u64])
    requires { (count ≤ most_lines) × (count ≤ length out.old) }
    ensures { out.new ≡ take count words ++ drop count out.old }
{
    out[..count].copy_from_slice(&words[..count]);
}
