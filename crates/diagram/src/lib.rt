// The rule diagram in a table: its file is read into it.
#![tactic(auto)]

mod reader;

pub use reader::{DiagramSizes, read_diagram};
