// What every search checks first, in this order: the chart, the diagram, the space. What passes stands in tables.
#![tactic(auto)]

mod answers;
mod loading;
mod walk;

pub use answers::{InFile, Refused, accepted, in_file, refusal};
pub use loading::load;
pub use walk::WalkTables;
