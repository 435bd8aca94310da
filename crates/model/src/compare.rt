// Comparing terms, and a number with a count.

ghost use Rattle.std.specs.Prelude.{◌≡◌};
ghost use Rattle.model.specs.Limits.{up_to};
ghost use Rattle.model.specs.Value.{same_term};

use crate::Term;

// Whether two terms have the same mark and the same number.
#[tactic(auto, unfolding(crate::specs::Value::same_term))]
pub fn same_term(t: Term, u: Term) -> bool
    ensures { result ≡ same_term t u }
{
    t == u
}

// Whether a number is from 1 to the count.
#[tactic(auto, unfolding(crate::specs::Limits::up_to))]
pub fn is_among(n: u64, count: u64) -> bool
    ensures { result ≡ up_to count n }
{
    (1..=count).contains(&n)
}
