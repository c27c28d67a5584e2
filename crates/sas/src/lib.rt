// SAS+ tasks: the tables that hold one, and the task that they make. Tables out of range make the
// empty task, so that making a task never fails.
#![tactic(auto)]

mod in_use;
mod range;
mod shape;
mod tables;
mod values;

pub use shape::SasTask;
pub use tables::{Condition, Operator, Reading, SasTables, Variable};
