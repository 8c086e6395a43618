// The house spelling on sets: K, the parts that it names, and the question whether some accepted text has a record's four.
#![tactic(auto)]

pub mod kind;
pub mod parts;
pub mod question;
