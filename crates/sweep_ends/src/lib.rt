// What the sweep does before its rows and after them: no pair is reached but the start's; the cheapest goal pair, and the
// count.
#![tactic(auto)]

mod goals;
mod start;

pub use goals::{Best, cheapest_goal, total_count};
pub use start::begin;
