// The month sheet of W-209 as bytes: the open calls `read_sheet` and `write_sheet`, and that each gives back what the
// other took. Nothing here knows a ledger.

#![tactic(auto)]

mod number;
pub mod read;
pub mod round;
pub mod write;
