// The scripts of `vectors`: their commands read, and the files that they say made in a buffer.
#![tactic(auto)]

pub mod read;
pub mod rules;
pub mod write;
