// The single fields of a chart file: their bodies, a step's entry in a column of the table of steps, and the table.
#![tactic(auto)]

mod bodies;
mod ends;
mod kinds;
mod table;

pub use bodies::{HeadBody, StepBody, check_head, check_step, head_of, step_of};
pub use ends::{ends_of, from_at, group_at, tag_at, to_at};
pub use kinds::{StepKind, step_length};
pub use table::StepTable;
