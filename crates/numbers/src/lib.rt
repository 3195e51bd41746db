// The numbers of the engine: the two roundings of document 01, division upwards, multiply-and-divide past 64 bits,
// the signed toolkit, and the units. Everything above computes with these and with plain sums.

#![tactic(auto)]

pub mod division;
pub mod refusal;
pub mod rounding;
pub mod signed;
pub mod sizes;
pub mod units;
