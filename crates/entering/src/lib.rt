// A query laid in rows, the words of its lines, and the variables that lines share.

#![tactic(auto)]

mod hiding;
mod laying;
mod showing;

pub use hiding::{LINE_WORDS, columns_of, enter_query, hidden_of, twice_of};
pub use laying::query_rows;
pub use showing::{is_shared, shared, show};
