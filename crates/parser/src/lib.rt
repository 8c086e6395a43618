// From tokens to expressions: the walk over the tokens, its state, and what it writes to the lent lists.
#![tactic(auto)]

pub mod apply;
pub mod parser;
pub mod state;
