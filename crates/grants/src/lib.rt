// The smallest extra grant: the fewest views that a partition wants to settle a query.

#![tactic(auto)]

mod granting;
mod searching;

pub use granting::smallest_grant;
