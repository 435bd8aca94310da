// A rule turned into a query text, behind the text that stands in a lent buffer.

#![tactic(auto)]

mod importing;
mod translating;

pub use importing::{import_checked, import_rule};
