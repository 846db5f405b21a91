// The steps from a pair that is settled: what they lead to is opened, or gets a lower key.
#![tactic(auto)]

mod steps;

pub use steps::{Source, settle};
