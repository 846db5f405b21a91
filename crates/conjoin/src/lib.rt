// The conjunction of two diagram files over one chart, written as a file into a lent buffer.
#![tactic(auto)]

mod call;
mod load;

pub use call::{conjoin, join};
pub use load::check_chart;
