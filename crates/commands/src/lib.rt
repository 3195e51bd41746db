// The commands of a journal, made one after another with their answers.

#![tactic(auto)]

mod answer;
mod call;
pub mod input;
pub mod kept;
pub mod run;
mod sheets;
