// The lines of a KISS2 text, one by one: the mark, the headers, the names of states, and a row. A line comes without its LF.
#![tactic(auto)]

pub mod heads;
pub mod marks;
pub mod row;
pub mod states;
