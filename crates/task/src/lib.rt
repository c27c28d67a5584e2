// What every other crate speaks of: a task and what it means, plans and their listing order, and the
// faults that a refused call answers with.
#![tactic(auto)]

mod faults;
mod steps;
mod tasks;

pub use faults::{Fault, Kind, Layer};
pub use steps::earlier;
pub use tasks::{NamedTask, Task};
