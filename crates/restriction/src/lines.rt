// Times that fall along lines: whether one arm stays above another, so that what is left of the clauses decides as they do.
ghost use Rattle.std.specs.Prelude.{◌≡◌, Bool, true, false, ℕ, ◌*◌, ◌<◌, ◌^◌, length, map};
ghost use Rattle.maxatom.specs.Book.{Each};
ghost use Rattle.maxatom.specs.Clauses.{arms_of};
ghost use Rattle.maxatom.specs.Inner.{InJobs};
ghost use Rattle.clauses.specs.Passes.{InTimes};
ghost use Rattle.restriction.specs.Restriction.{own, Staying, Above, Keeper, Covered, InComponents, ClauseAllowed, Allowed};

use crate::pace::{Pace, component_of};
use crate::restricting::{is_own, leftover};
use clauses::{AsClause, is_tautology, plus};
use maxatom::Arm;

// Small enough for the sums and products of `stays`.
fn small(a: u64) -> bool
    ensures { result ≡ true → a < 2 ^ 30 }
{
    a < 1073741824
}

// A line that starts `gap` minutes above another stays above it for `passes` passes, as both fall at their paces.
#[tactic(auto, using(crate::proofs::Allowing::products_fit))]
fn stays(gap: u64, high: Pace, low: Pace, passes: u64) -> bool
    ensures { result ≡ true → Staying gap high.period high.fall low.period low.fall passes }
{
    let period = u64::from(high.period);
    let fall = u64::from(high.fall);
    let other_period = u64::from(low.period);
    let other_fall = u64::from(low.fall);
    if period < 1 || other_period < 1 {
        return false;
    }
    // Each is tested by its name: the bounds of the products below are not proved from a test over an array of them.
    if !(small(gap)
        && small(period)
        && small(fall)
        && small(other_period)
        && small(other_fall)
        && small(passes))
    {
        return false;
    }
    let both = period * other_period;
    let turns = fall * other_period;
    let others = other_fall * period;
    if !(small(both) && small(turns) && small(others)) {
        return false;
    }
    let room = gap * both;
    let late = other_fall * both;
    turns * (1 + period) + late <= room
        && turns * (passes + 1 + period) + late <= room + others * passes
}

// An arm stays at or above another, as the times of their jobs fall along their lines.
fn above(high: Arm, low: Arm, paces: &[Pace], times: &[i32], passes: u64) -> bool
    requires in_times { (high.job < length times.now) × (low.job < length times.now) }
    requires paces_len { length paces.now ≡ length times.now }
    ensures { result ≡ true → Above paces.now times.now high low passes }
{
    let i = usize::from(high.job);
    let j = usize::from(low.job);
    let Ok(gap) = u64::try_from(plus(times[i], high.offset) - plus(times[j], low.offset)) else {
        return false;
    };
    stays(gap, paces[i], paces[j], passes)
}

// Some own arm stays at or above an arm.
fn is_covered<C: AsClause>(c: &C, arm: Arm, paces: &[Pace], times: &[i32], passes: u64) -> bool
    requires arm_in_range { arm.job < length times.now }
    requires in_jobs { InJobs (length times.now) (C.clause c.now) }
    requires paces_len { length paces.now ≡ length times.now }
    ensures { result ≡ true → Covered paces.now times.now passes (C.clause c.now) arm }
{
    for i in 0..c.arm_count() {
        let high = c.arm(i);
        if is_own(c, high, paces) && above(high, arm, paces, times, passes) {
            return true;
        }
    }
    false
}

// Each arm that is not own is covered.
fn others_covered<C: AsClause>(c: &C, paces: &[Pace], times: &[i32], passes: u64) -> bool
    requires in_jobs { InJobs (length times.now) (C.clause c.now) }
    requires paces_len { length paces.now ≡ length times.now }
    ensures { result ≡ true → Each (λ a. own paces.now (C.clause c.now) a ≡ false → Covered paces.now times.now passes (C.clause c.now) a) (arms_of (C.clause c.now)) }
{
    for i in 0..c.arm_count() {
        let arm = c.arm(i);
        if !is_own(c, arm, paces) && !is_covered(c, arm, paces, times, passes) {
            return false;
        }
    }
    true
}

// Some arm stays at or above the target.
fn has_keeper<C: AsClause>(c: &C, paces: &[Pace], times: &[i32], passes: u64) -> bool
    requires in_jobs { InJobs (length times.now) (C.clause c.now) }
    requires paces_len { length paces.now ≡ length times.now }
    ensures { result ≡ true → Keeper paces.now times.now passes (C.clause c.now) }
{
    let target = Arm {
        job: c.target(),
        offset: 0,
    };
    for i in 0..c.arm_count() {
        if above(c.arm(i), target, paces, times, passes) {
            return true;
        }
    }
    false
}

// The components of the clause's jobs are below `components`.
fn in_components<C: AsClause>(c: &C, components: u16, paces: &[Pace]) -> bool
    requires { InJobs (length paces.now) (C.clause c.now) }
    ensures { result ≡ true → InComponents paces.now components (C.clause c.now) }
{
    for i in 0..c.arm_count() {
        if components <= component_of(paces, c.arm(i).job) {
            return false;
        }
    }
    component_of(paces, c.target()) < components
}

// What is left of a clause decides as it does.
fn allows<C: AsClause>(c: &C, components: u16, paces: &[Pace], times: &[i32], passes: u64) -> bool
    requires in_jobs { InJobs (length times.now) (C.clause c.now) }
    requires paces_len { length paces.now ≡ length times.now }
    ensures { result ≡ true → ClauseAllowed (C.clause c.now) paces.now times.now components passes }
{
    if is_tautology(c) {
        return true;
    }
    if !in_components(c, components, paces) {
        return false;
    }
    match leftover(c, paces, times) {
        Some(_) => others_covered(c, paces, times, passes),
        None => has_keeper(c, paces, times, passes),
    }
}

// What is left of the clauses decides as they do, for `passes` passes along the lines.
pub fn all_allow<C: AsClause>(
    clauses: &[C],
    components: u16,
    paces: &[Pace],
    times: &[i32],
    passes: u64,
) -> bool
    requires in_times { InTimes (map C.clause clauses.now) times.now }
    requires paces_len { length paces.now ≡ length times.now }
    ensures { result ≡ true → Allowed (map C.clause clauses.now) paces.now times.now components passes }
{
    for c in clauses {
        if !allows(c, components, paces, times, passes) {
            return false;
        }
    }
    true
}
