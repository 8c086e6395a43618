// What the token step decides of one token: its effect on the parser's state, from the token, the state and the tokens after it.
#![tactic(auto)]

pub mod context;
pub mod effect;
pub mod interval;
pub mod step;
