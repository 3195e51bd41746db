// The fixing of document 01, by value and with no ledger in it: averages, average power prices, limit, rounds, final
// prices, charges and sector charges from checked lines, and the causes 6 to 11 and 14 in their order.

#![tactic(auto)]

mod average;
mod distributors;
pub mod fix;
mod power;
pub mod prices;
pub mod sector;
