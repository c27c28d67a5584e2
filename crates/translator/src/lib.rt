// Translator files: the reader of the format, version 3, into the tables of a SAS+ task.
#![tactic(auto)]

mod conditions;
mod cursor;
mod fields;
mod files;
mod forms;
mod lines;
mod numerals;
mod sections;
mod seen;
mod sizes;
mod stores;
mod variables;

pub use files::read;
pub use numerals::numeral;
