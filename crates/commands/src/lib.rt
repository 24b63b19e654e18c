// What an order does to the table: how it is judged, what it changes when it is accepted, and the flag that a
// refusal leaves. Each of these is said in specs/ by the same name.

#![tactic(auto)]

pub mod changing;
pub mod flags;
pub mod judging;
