// For measuring alone, and no interface of the desk: under one loaded policy a query is labelled, or decided from its text, or
// given its smallest extra grant, again and again, and the policy is checked again and again. Each result is a sum in which every
// answer has a part, so that the compiler can leave none out; it is 0 where a text is turned back. Beside them the program's
// whole work.

#![tactic(auto)]

mod checking;
mod deciding;
mod granting;
mod labels;
mod running;

pub use checking::measure_check;
pub use deciding::measure_decide;
pub use granting::measure_grant;
pub use labels::measure_label;
pub use running::measure_run;
