// The readers of a row, of a dichotomy and of a state's outputs. Each takes the line's bytes without its LF.
#![tactic(auto)]

pub mod dichotomy;
pub mod outputs;
pub mod row;
