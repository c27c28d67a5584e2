// Tallies: what is summed up over plans. A tally has a unit, the extension of a value by an operator
// and the join of two values; there are two, the count of plans and the count with an operator watched.
#![tactic(auto)]

mod pairs;
mod plans;
mod shares;
mod tallies;
mod theorems;

pub use pairs::Pair;
pub use plans::{join_all, value_of};
pub use shares::share;
pub use tallies::{Count, Tally, Watch};
pub use theorems::{joins_in_any_order, only_pairs};

#[cfg(test)]
mod tests;
