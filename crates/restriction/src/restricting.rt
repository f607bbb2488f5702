// What is left of a clause for the component of its target, and of the clauses for a component.
ghost use Rattle.std.specs.Prelude.{◌≡◌, true, false, [], ◌∷◌, ℕ, ◌+◌, ◌<◌, ◌≤◌, length, map, take, MatchOption, Some, None};
ghost use Rattle.maxatom.specs.Clauses.{arms_of};
ghost use Rattle.maxatom.specs.Inner.{arm_at, InJobs};
ghost use Rattle.clauses.specs.Passes.{InTimes};
ghost use Rattle.restriction.specs.Restriction.{own, first_own, with_own, leftover, pick};

use crate::pace::{Pace, component_of};
use clauses::{AsClause, is_tautology};
use maxatom::Arm;

// The job of an arm is in the component of the clause's target.
pub fn is_own<C: AsClause>(c: &C, arm: Arm, paces: &[Pace]) -> bool
    requires arm_in_range { arm.job < length paces.now }
    requires in_paces { InJobs (length paces.now) (C.clause c.now) }
    ensures { result ≡ own paces.now (C.clause c.now) arm }
{
    component_of(paces, arm.job) == component_of(paces, c.target())
}

// The number of the first own arm.
fn first_own<C: AsClause>(c: &C, paces: &[Pace]) -> Option<usize>
    requires { InJobs (length paces.now) (C.clause c.now) }
    ensures first { let first = first_own paces.now (C.clause c.now) (arms_of (C.clause c.now)) in
        MatchOption result (first ≡ None) (λ i. first ≡ Some (arm_at (C.clause c.now) i)) }
    ensures in_range { MatchOption result (Unit {0}) (λ i. i < length (arms_of (C.clause c.now))) }
    ensures is_own { MatchOption result (Unit {0}) (λ i. own paces.now (C.clause c.now) (arm_at (C.clause c.now) i) ≡ true) }
{
    for i in 0..c.arm_count() {
        if is_own(c, c.arm(i), paces) {
            return Some(i);
        }
    }
    None
}

// The clause with arm `first`, which is own, in the place of each arm that is not.
fn with_own<C: AsClause>(c: &C, first: usize, paces: &[Pace]) -> C
    requires in_paces { InJobs (length paces.now) (C.clause c.now) }
    requires in_range { first < length (arms_of (C.clause c.now)) }
    requires is_own { own paces.now (C.clause c.now) (arm_at (C.clause c.now) first) ≡ true }
    ensures { C.clause result ≡ with_own paces.now (arm_at (C.clause c.now) first) (C.clause c.now) }
{
    let mut d = *c;
    for i in 0..c.arm_count() {
        if !is_own(c, c.arm(i), paces) {
            d = d.with_arm(i, first);
        }
    }
    d
}

// What is left of a clause for the component of its target.
pub fn leftover<C: AsClause>(c: &C, paces: &[Pace], times: &[i32]) -> Option<C>
    requires in_paces { InJobs (length paces.now) (C.clause c.now) }
    requires in_times { InJobs (length times.now) (C.clause c.now) }
    ensures { let left = leftover paces.now times.now (C.clause c.now) in
        MatchOption result (left ≡ []) (λ d. left ≡ C.clause d ∷ []) }
{
    if is_tautology(c) {
        return None;
    }
    let first = first_own(c, paces)?;
    let d = with_own(c, first, paces);
    if c.left_side(times) <= d.left_side(times) {
        Some(d)
    } else {
        None
    }
}

// Picks what is left of the clauses for a component, and answers how many they are.
pub fn fill<C: AsClause>(
    clauses: &[C],
    paces: &[Pace],
    times: &[i32],
    component: u16,
    picked: &mut [C],
) -> usize
    requires in_times { InTimes (map C.clause clauses.now) times.now }
    requires paces_len { length paces.now ≡ length times.now }
    requires picked_len { length clauses.now ≤ length picked.old }
    ensures upper_bound { result ≤ length clauses.now }
    ensures taken { map C.clause (take result picked.new) ≡ pick component (component + 1) paces.now times.now (map C.clause clauses.now) }
{
    // No `filter_map` and `collect`: there is no heap, so the clauses are counted into the lent slice.
    let mut count = 0;
    for c in clauses {
        if component_of(paces, c.target()) == component {
            if let Some(left) = leftover(c, paces, times) {
                picked[count] = left;
                count += 1;
            }
        }
    }
    count
}
