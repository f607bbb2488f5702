// The book file: the reader, a rule's record, the writers of a rule's record and of a plan.

#![tactic(auto)]

mod bytes;
pub mod mark;
pub mod reading;
pub mod writing;
