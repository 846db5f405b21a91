// What the searches need of each stage of a chart that stands in tables: its first step and its estimate.
#![tactic(auto)]

mod estimates;
mod first;

pub use estimates::fill_chart_estimates;
pub use first::fill_first_steps;
