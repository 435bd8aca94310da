// Answers by document 01's definition: "A valuation gives each variable a whole number so that each line becomes a row of its table."
// Lines are laid in rows as the desk lays them; an archive is rows of nine numbers. For people who look at archives, and for tests: no
// label and no reduced query is used here.

#![tactic(auto)]

mod answers;
mod judging;
mod valuation;

pub use answers::{Answers, MOST_ANSWERS, answers_of, no_answers, shown_word};
pub use judging::{grants, tells_apart, view_rows};
pub use valuation::{ROW, VARIABLES};
