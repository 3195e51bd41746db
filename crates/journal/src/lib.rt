// The text form of calls: tokens, words, numbers, lists and commands.

#![tactic(auto)]

pub mod command;
pub mod cursor;
pub mod form;
mod list;
mod number;
mod token;
