// Numbers in digits: decimal ones read off a text, decimal and hex ones written into the part of a buffer that the caller lends; and
// quoted texts, written likewise. What they are is said in specs/. The writers are no Display: they write bytes into memory that is lent,
// with no heap, and promise how many (`Wrote`).

#![tactic(auto)]

pub mod decimal;
pub mod hex;
pub mod quoted;
