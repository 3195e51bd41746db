// The supply lines of document 01: a line and its terms by value, the test of their ranges (cause 6), the search for a
// missing month (cause 10), the price that a line takes, and the steps from the base price to the reference and to the
// power price with their bounds (cause 11) and whether any line moved (cause 14).

#![tactic(auto)]

pub mod line;
pub mod market;
mod months;
pub mod price;
pub mod range;
