// From keys to numbers: the keys of the variables of lines, each at its first place, and the lines with that place for the key.

#![tactic(auto)]

mod lines;
mod names;

pub use lines::number_line;
pub use names::{Names, names_of, place_of};
