// The nodes of a rule diagram that stands in a table: how they are advanced and finished.
#![tactic(auto)]

mod walks;

pub use walks::{Lowered, branch, descend_to, fill_finishing, finishes, lowered_at};
