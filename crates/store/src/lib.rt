// Kept ledgers: a ledger as the parts of the form `load`, and those parts as a ledger. What is saved is loaded as the
// same ledger.

#![tactic(auto)]

pub mod load;
pub mod save;
