// Two archives behind a no: rows on which the views of a partition agree, and a query does not, once the first row is gone.

#![tactic(auto)]

mod buffer;
mod marking;
mod telling;
mod unsettled;
mod writing;

pub use telling::{MOST_CELLS, Telling, tell_apart};
