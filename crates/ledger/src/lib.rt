// The ledger of document 01: opened, fixed, settled and joined by open calls that refuse bad input by the paper's
// numbers. A ledger goes in by value and comes back by value; lists are lent, and written only after the last check.

#![tactic(auto)]

mod billed;
mod calendar;
pub mod fix;
pub mod join;
pub mod ledger;
pub mod open;
pub mod settle;
mod sound;
