// One month's settlement by value, with no ledger in it: the test of readings and loss factors (cause 12), collected
// amounts, positions and their test (cause 13), shares, transfers and new balances.

#![tactic(auto)]

pub mod amount;
pub mod month;
mod share;
