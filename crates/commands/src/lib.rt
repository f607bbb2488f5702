// The lines of the program `board`: what a line asks for, and the text of each answer.

#![tactic(auto)]

pub mod reading;
pub mod writing;
