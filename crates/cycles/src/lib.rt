// A list of starts and ends on one chart, but for the loop over the list: what is done once for all entries, and what for each.
#![tactic(auto)]

pub mod entry;
pub mod once;
