// Tagged fields: the first field of a file, and a reader of the others, remarks and what the file holds; why and where a
// file is refused.
#![tactic(auto)]

mod fault;
mod look;
pub mod reader;

pub use fault::{Fault, Stopped};
pub use look::{first_field, is_whole, next_field};
pub use reader::Reader;
