// The scripts of bench, taken byte by byte. What bench prints for a whole script is said in specs/.

#![tactic(auto)]

pub mod taking;
