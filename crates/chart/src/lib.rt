// The chart file read into a table.
#![tactic(auto)]

mod reader;
mod sizes;

pub use reader::read_chart;
pub use sizes::ChartSizes;
