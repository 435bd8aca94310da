// Sessions: opening one under a policy, and what a call that decides in it says and leaves.

#![tactic(auto)]

mod opening;
mod replies;

pub use opening::{Session, open_loaded, open_session};
pub use replies::{Decision, Reply, answer, refused, unfit};
