// Why a partition settles a query or not, written to a lent buffer.

#![tactic(auto)]

ghost use Rattle.std.specs.Prelude.{◌≡◌, ◌++◌, ℕ, ◌^◌, ◌≤◌, ◌<◌, length, get_or, take, drop};
ghost use Rattle.words.specs.Bits.{half_bits};
ghost use Rattle.words.specs.TestBits.{test_bits, up_from};
ghost use Rattle.model.specs.Limits.{most_views, most_partitions, most_lines};
ghost use Rattle.policy_text.specs.Abstract.{granted_at};
ghost use Rattle.explanations.specs.Explaining.{ExplanationGiven};
ghost use Rattle.explanations.specs.WordsGiven.{SomeExplained, WordsGiven};

use model::{MOST_LINES, MOST_VIEWS, Policy, Refusal};
use word_list::Words;

// Whether the partition settles the query, and how many words explain it.
#[derive(Clone, Copy)]
pub struct Explaining {
    pub is_settled: bool,
    pub count: usize,
}

// The explanation of a query text for partition n; numbers past it stay.
pub fn explain(p: Policy, n: u64, text: &[u8], out: &mut [u32]) -> Result<Explaining, Refusal>
    ensures { ExplanationGiven p n text.now out.old result out.new }
{
    if !validity::valid(p) {
        return Err(Refusal { number: 8, line: 0 });
    }
    if !model::is_among(n, p.partition_count as u64) {
        return Err(Refusal { number: 4, line: 0 });
    }
    let l = labelling::ask(p, text)?;
    let granted = granted_views(p.grants, n - 1);
    let is_settled = words::has_bit(l.settling, n - 1);
    give_words(l.words, granted, is_settled, out)
}

// The views that partition i, counted from 0, grants: view n at bit n - 1.
pub fn granted_views(grants: [u64; MOST_VIEWS], i: u64) -> u64
    requires { i < most_partitions }
    ensures { result ≡ test_bits (granted_at grants i) (up_from 0 most_views) }
{
    let mut word = 0;
    for (k, granting) in grants.iter().enumerate() {
        let on = words::has_bit(*granting, i);
        word = words::set_bit_if(word, k as u64, on);
    }
    word
}

// The words for a partition with these granted views, which settles the query or not, at the head of the buffer, or 10.
fn give_words(
    l: Words,
    granted: u64,
    is_settled: bool,
    out: &mut [u32],
) -> Result<Explaining, Refusal>
    requires { SomeExplained l granted is_settled }
    ensures { WordsGiven l granted is_settled out.old result out.new }
{
    let w = explain::words_of(l, granted, is_settled);
    let count = w.count;
    if out.len() < count {
        return Err(Refusal {
            number: 10,
            line: 0,
        });
    }
    let words = w.words;
    write_words(words, count, out);
    Ok(Explaining { is_settled, count })
}

// The first words, each of 32 bits, at the head of the buffer; numbers past them stay.
pub fn write_words(words: [u64; MOST_LINES], count: usize, out: &mut [u32])
    requires { (count ≤ most_lines) × (count ≤ length out.old) × ((i : ℕ) → get_or words i 0 < 2 ^ half_bits) }
    ensures { out.new ≡ take count words ++ drop count out.old }
{
    for (i, word) in words[..count].iter().enumerate() {
        out[i] = *word as u32;
    }
}
