// Repetitions of the same passes, taken at once.
//
// That the clauses name jobs of the times, and that the room is long enough for these, are requirements and no types: the clauses and the
// times come from two borrowed slices, and a struct of both would be made anew for each component. The floor goes beside the clauses,
// since it is that of the whole run where the clauses are those of a component.

#![tactic(auto)]

mod accelerating;
mod lockstep;
mod plain;
mod room;
mod watching;

pub use accelerating::accelerate;
pub use plain::{plain_pass, plain_passes};
pub use room::{Room, Watch};
pub use watching::{few, fingerprint, later, period, watch};
