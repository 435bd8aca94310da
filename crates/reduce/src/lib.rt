// Reducing a query: which lines may go.

#![tactic(auto)]

mod assignment;
mod candidates;
mod columns;
mod folding;
mod goings;
mod pairs;
mod taking;

pub use taking::lines_left;
