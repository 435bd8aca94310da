// The pieces of a rule: names, terms and atoms. A name is held as a number, its key: it has four bytes at most, and none of them is 0.

#![tactic(auto)]

mod args;
mod atoms;
mod names;

pub use args::{Atom, Unreadable};
pub use atoms::read_atom;
pub use names::{BRACKET, SPACE, read_name};
