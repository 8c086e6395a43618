// What the parser gives: expressions and errors.
#![tactic(auto)]

pub mod expression;
pub mod parser_error;
