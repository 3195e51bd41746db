// Text for the programs, in buffers of fixed size: what a buffer holds is proved, and a program has only to print it.

#![tactic(auto)]

pub mod buffer;
pub mod lent;
pub mod name;
pub mod number;
pub mod row;
