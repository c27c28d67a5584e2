// Charts: tasks whose states, moves and estimates are listed in tables. Tables that the check refuses make
// the empty task.
#![tactic(auto)]

mod checks;
mod index;
mod shape;
mod tables;

pub use shape::Chart;
pub use tables::{Arc, ChartTables};

#[cfg(test)]
mod tests;
