// The whole job of `plans`: from the bytes of a translator file to the bytes that are written.
#![tactic(auto)]

mod listed;
mod output;
mod written;

pub use listed::list_plans;
pub use output::Output;
