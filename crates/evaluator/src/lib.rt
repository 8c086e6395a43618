// From expressions to intervals: the base form and the stages; the display list is of the crate `display`.
#![tactic(auto)]

pub mod ast;
pub mod evaluator;
pub mod stages;
