// A scan list as a bench script: the lines of a step and the last line (lines), and a whole list (listing). What is printed stands in
// specs/.

#![tactic(auto)]

pub mod lines;
pub mod listing;
