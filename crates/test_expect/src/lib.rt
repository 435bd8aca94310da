// What the test programs share: a reply as plain numbers, compared and printed, deciding in a session that is lent, policies, and files
// of cases, and a buffer of cells that is lent.

#![tactic(auto)]

mod cases;
pub mod cells;
mod deciding;
mod policies;
mod said;

pub use cases::{Number, Text, is_case, number_at, place_of, print_malformed, run_all, text_at};
pub use deciding::{Case, all_decided, decided};
pub use policies::{altered, example, wider};
pub use said::{
    Said, apart, counted, given, no, nothing, print_case, refused, settled, unsettled, written, yes,
};
