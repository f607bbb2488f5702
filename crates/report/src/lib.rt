// The text that latest prints, and the line of a refusal alone.

#![tactic(auto)]

mod latest;
mod lines;
pub mod text;

pub use latest::report;
pub use lines::refused_line;
