// The conjunction of two diagrams that stand in tables, by a walk over pairs of their nodes (APPLY of "and").
#![tactic(auto)]

mod operands;
mod stack;
mod walk;

pub use operands::{Operands, Pair};
pub use walk::apply;
