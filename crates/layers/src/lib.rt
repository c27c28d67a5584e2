// Layers over any task: one operator barred, or one operator required. A layer lends the task below it and is
// itself a task, so layers can be piled.
#![tactic(auto)]

mod barred;
mod plans;
mod required;

pub use barred::Barred;
pub use plans::{barred_beyond, barred_plans, required_beyond, required_plans};
pub use required::Required;
