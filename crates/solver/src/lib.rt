// A book's rules and assignments: the initial assignment, the tests of a board and of a rule, a rule's step, and the bench run.

#![tactic(auto)]

mod bench_run;
mod board;
mod rule;

pub use bench_run::solve;
pub use board::{below_floor, in_range, initial, tally_fits};
pub use rule::{is_equality, is_satisfied, left_side, lower};
