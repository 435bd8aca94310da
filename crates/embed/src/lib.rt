// The desk for programs in other languages: each operation as a function that C can call. Numbers, slices and plain structs go in and
// come out, and nothing is kept between calls. A policy and a session are values that the caller keeps where it likes; whatever bytes they
// then have is met by 8 and by 9.

#![tactic(auto)]

mod about;
mod deciding;
mod operations;

pub use about::{About, kolbrees_about, kolbrees_version};
pub use operations::{
    PlainDecision, PlainLoading, PlainOpening, kolbrees_apart, kolbrees_compare, kolbrees_decide,
    kolbrees_explain, kolbrees_grant, kolbrees_import, kolbrees_labels, kolbrees_load,
    kolbrees_open,
};
pub use plain_replies::PlainReply;
