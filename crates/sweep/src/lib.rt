// The sweep: the least cost of every pair, row by row, and a cheapest legal plan.
#![tactic(auto)]

mod conclude;
mod run;

pub use run::sweep;
