// What the commands of a journal answer: the writers of its lines and of whole answers, stated byte by byte.

#![tactic(auto)]

pub mod answer;
pub mod line;
