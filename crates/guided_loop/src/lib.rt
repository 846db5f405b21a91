// The loop of the guided search (A*): the open pair of smallest cost so far plus estimate is settled, until a goal pair is settled or none is open.
#![tactic(auto)]

mod turns;

pub use turns::{Slices, search};
