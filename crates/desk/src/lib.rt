// The query desk: sessions, deciding queries in them, their labels and explanations, each from its own crate, and the order of labels. What
// the desk promises of all of these stands in its specs.

#![tactic(auto)]

mod comparing;

pub use comparing::compare_labels;
pub use decisions::{decide, decide_checked, decide_loaded, decide_rows};
pub use explanations::{Explaining, explain, granted_views, write_words};
pub use label_lists::labels;
pub use sessions::{Decision, Reply, Session, open_loaded, open_session};
