// The public calls on a lent table of rules. A call on a table checks all of it before it looks at anything else.

#![tactic(auto)]

mod back;
mod bench_run;
mod checks;
mod hand_step;
mod kept;
mod tight;

pub use back::step_back;
pub use bench_run::solve;
pub use bookfile::reading::{read_book, record};
pub use bookfile::writing::write_plan;
pub use derivation::{Counts, Fault, Refusal, Solved, Tally};
pub use hand_step::step;
pub use kept::first_violated;
pub use maxatom::{Class, Rule, Slip};
pub use solver::initial;
pub use tight::is_tight;
