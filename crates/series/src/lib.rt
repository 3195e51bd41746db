// The index series of document 01: the table by value, filled from the lent words, the test of its values, and the
// means that terms take from it.

#![tactic(auto)]

pub mod mean;
pub mod table;
