// One guided search over tables: those that it walks, whatever its start and end, and the search from a start to an end.
#![tactic(auto)]

mod run;
mod tables;

pub use run::seek;
pub use tables::fill_tables;
