// The labels that hold no granted view, and the best views to add for them.

ghost use Rattle.std.specs.Prelude.{◌≡◌, List, ℕ, ◌≤◌, ◌<◌};
ghost use Rattle.model.specs.Limits.{most_lines, most_views};
ghost use Rattle.word_list.specs.Value.{words_value};
ghost use Rattle.explain.specs.Explanation.{lacking};
ghost use Rattle.grants.specs.Searching.{holding, hits_of, SomeLacking, HoldsBestFor};

use hitting::Hits;
use model::MOST_VIEWS;
use word_list::Words;

// The views of each label that holds no granted view, in the order of the labels.
pub fn lacking_views(l: Words, granted: u64) -> Words
    requires { l.count ≤ most_lines }
    ensures count_le_count { result.count ≤ l.count }
    ensures by_index { (ws : List ℕ) → l ≡ words_value ws → result ≡ words_value (lacking granted ws) }
{
    let mut r = word_list::no_words();
    for w in &l.words[..l.count] {
        let views = words::high_half(*w);
        if !words::meets(views, granted) {
            r = word_list::push(r, views);
        }
    }
    r
}

// Which of the words hold view v + 1, the first word at bit 0. Where a view stands in a word is known here alone.
fn holding(l: Words, v: u64) -> u64
    requires { (l.count ≤ most_lines) × (v < most_views) }
    ensures { (ws : List ℕ) → l ≡ words_value ws → result ≡ holding ws v }
{
    let mut word = 0;
    for (i, w) in l.words[..l.count].iter().enumerate() {
        let on = words::has_bit(*w, v);
        word = words::set_bit_if(word, i as u64, on);
    }
    word
}

// The same for each view, the first at place 0.
fn hits_of(l: Words) -> Hits
    requires { l.count ≤ most_lines }
    ensures { (ws : List ℕ) → l ≡ words_value ws → result ≡ hits_of ws }
{
    let mut hits = [0; MOST_VIEWS];
    for (v, hit) in hits.iter_mut().enumerate() {
        *hit = holding(l, v as u64);
    }
    hits
}

// The best views for some words, none of which is empty: a view costs nothing, so the shortest list, and of these the first.
pub fn best_views(l: Words) -> Words
    requires { SomeLacking l }
    ensures { (ws : List ℕ) → l ≡ words_value ws → HoldsBestFor ws result }
{
    let hits = hits_of(l);
    let costs = [0; MOST_VIEWS];
    hitting::best(&hits, &costs, l.count as u64)
}
