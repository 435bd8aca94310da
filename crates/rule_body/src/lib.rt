// The body of a rule, and its head beside the body's names.

#![tactic(auto)]

mod body;
mod head;

pub use body::{Body, read_body};
pub use head::{Head, read_head};
