// The single fields of a diagram file: an inner node's body, and its entry in the table of inner nodes.
#![tactic(auto)]

mod bodies;
mod words;

pub use bodies::{check_node, node_word};
pub use words::{hi_at, hi_of, leaf_word, lo_at, lo_of, step_at, step_of, word};
