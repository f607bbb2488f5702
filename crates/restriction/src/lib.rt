// What of the clauses is left for a component of the jobs, and whether it decides as they do.
//
// That the clauses name jobs of the times, and that there is a pace for each job, are requirements and no types: clauses, times and paces
// are slices that callers lend.

#![tactic(auto)]

mod lines;
mod pace;
mod restricting;

pub use lines::all_allow;
pub use pace::Pace;
pub use restricting::fill;
