// The bytes that a program writes: a plan's text, and the line that says why a program stopped.
#![tactic(auto)]

mod parts;
mod plan;
mod refusal;

pub use plan::write_plan;
pub use refusal::write_refusal;

#[cfg(test)]
mod tests;
