// The best list of views that between them hit every label of a set: the shortest, of these the cheapest, of these the first. A set of
// labels is a word, label j at bit j.

#![tactic(auto)]

mod choosing;
mod filling;

pub use choosing::best;
pub use filling::{Costs, Hits};
