// The guided search (A*) of a chart file under a diagram file: the checks, the search, and the plan.
#![tactic(auto)]

mod run;

pub use run::guided;
