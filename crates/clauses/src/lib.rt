// Clauses: max-atoms with 1 to 8 arms, each with its own offset, and passes over them.
//
// What is read as a clause is a type parameter, so that a table's rules are passed over where they lie. That a clause's jobs are jobs of
// the times is a requirement and no type: the clauses and the times come from two borrowed slices.

#![tactic(auto)]

mod clause;
mod minutes;
mod passing;
mod reading;
mod several;

pub use clause::AsClause;
pub use minutes::{earlier, fall, is_earlier, plus, product};
pub use passing::{Pass, Stop, new_pass, pass_over};
pub use reading::{is_satisfied, is_tautology, one_reaches};
pub use several::Clause;
