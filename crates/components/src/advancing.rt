// Each component advanced for itself, all by as many passes.
ghost use Rattle.std.specs.Prelude.{◌≡◌, true, ℕ, ◌<◌, ◌≤◌, ◌^◌, length, map, get_or, pos, ◌+ℤ◌, ◌≤ℤ◌, IfSome, MatchOption};
ghost use Rattle.maxatom.specs.Rule.{time_at};
ghost use Rattle.maxatom.specs.Passes.{Walk};
ghost use Rattle.clauses.specs.Passes.{InTimes};
ghost use Rattle.accelerate.specs.Acceleration.{PassesMade};
ghost use Rattle.components.specs.Components.{Advanced, Chosen, Ahead};

use crate::scratch::blank;
use accelerate::{Room, plain_pass, plain_passes};
use clauses::AsClause;
use restriction::{Pace, all_allow, fill};

// No job falls.
fn at_rest(drops: &[u32]) -> bool
    ensures { result ≡ true → (job : ℕ) → get_or drops.now job 0 ≡ 0 }
{
    drops.iter().all(|drop| *drop == 0)
}

// A time has fallen no more than its drop.
fn is_within(from: i32, to: i32, drop: u32) -> bool
    ensures { result ≡ true → from ≤ℤ (to +ℤ pos drop) }
{
    i64::from(from) <= i64::from(to) + i64::from(drop)
}

// No job has fallen more than its drop.
fn all_within(from: &[i32], to: &[i32], drops: &[u32]) -> bool
    requires { (length to.now ≡ length from.now) × (length drops.now ≡ length from.now) }
    ensures { result ≡ true → (job : ℕ) → job < length from.now → time_at from.now job ≤ℤ (time_at to.now job +ℤ pos (get_or drops.now job 0)) }
{
    for (i, t) in from.iter().enumerate() {
        if !is_within(*t, to[i], drops[i]) {
            return false;
        }
    }
    true
}

// Makes one pass. Answers whether it had no step, so that no pass after it has one.
fn is_still<C: AsClause>(clauses: &[C], floor: i32, times: &mut [i32]) -> bool
    requires { InTimes (map C.clause clauses.now) times.old }
    ensures { result ≡ true → Walk floor (map C.clause clauses.now) times.old times.new 0 }
{
    match plain_pass(clauses, floor, times) {
        Some(pass) => pass.steps == 0,
        None => false,
    }
}

// Makes `passes` passes over the clauses of a component: repetitions of its period at once, and the rest one by one. Answers their steps,
// or none where a test fails.
fn advance<C: AsClause>(
    clauses: &[C],
    floor: i32,
    period: usize,
    passes: u64,
    drops: &[u32],
    room: &mut Room<256>,
    times: &mut [i32],
) -> Option<u64>
    requires in_times { InTimes (map C.clause clauses.now) times.old }
    requires few { length times.old ≤ 256 }
    requires drops_len { length drops.now ≡ length times.old }
    ensures { IfSome result (λ s. Advanced (map C.clause clauses.now) floor period drops.now times.old times.new passes s) }
{
    if period < 1 {
        return None;
    }
    if at_rest(drops) {
        if 1 < period || !is_still(clauses, floor, times) {
            return None;
        }
        return Some(0);
    }
    let repetitions = passes / (period as u64);
    let rest = passes % (period as u64);
    if repetitions < 2 {
        return None;
    }
    let steps = accelerate::accelerate(
        clauses,
        floor,
        period,
        repetitions - 1,
        drops,
        room,
        times,
    )?;
    if 2305843009213693952 <= steps {
        return None;
    }
    let n = times.len();
    let near = &mut room.near[..];
    let near = &mut near[..n];
    near.copy_from_slice(times);
    let more = plain_passes(clauses, floor, rest, times)?;
    if 2305843009213693952 <= more || !all_within(near, times, drops) {
        return None;
    }
    Some(steps + more)
}

// The period of a component's first job, or 1 for a component of no job.
fn component_period(component: u16, paces: &[Pace]) -> u32 {
    for pace in paces {
        if pace.component == component {
            return pace.period;
        }
    }
    1
}

// Fills in the drops of a component's jobs, and 0 for the others. Answers the component's period, or none where a job of it has another or
// has moved.
fn choose(
    component: u16,
    paces: &[Pace],
    times: &[i32],
    ahead: &[i32],
    drops: &mut [u32],
) -> Option<u32>
    requires paces_len { (length paces.now ≡ length times.now) × (length ahead.now ≡ length times.now) }
    requires drops_len { length drops.old ≡ length times.now }
    ensures { IfSome result (λ period. Chosen component period paces.now times.now ahead.now drops.new) }
{
    let period = component_period(component, paces);
    for (i, pace) in paces.iter().enumerate() {
        if pace.component == component {
            if ahead[i] != times[i] || pace.period != period {
                return None;
            }
            drops[i] = pace.fall;
        } else {
            drops[i] = 0;
        }
    }
    Some(period)
}

// Makes `passes` passes over each component, for itself, which take the times to those ahead. Answers the steps of all, or none where a
// test fails.
#[tactic(auto, using(crate::proofs::Merging::ahead_none))]
fn advance_components<C: AsClause>(
    clauses: &[C],
    floor: i32,
    components: u16,
    paces: &[Pace],
    passes: u64,
    times: &[i32],
    room: &mut Room<256>,
    ahead: &mut [i32],
) -> Option<u64>
    requires in_times { InTimes (map C.clause clauses.now) times.now }
    requires sizes { (length clauses.now ≤ 1024) × (length times.now ≤ 256) }
    requires paces_len { (length paces.now ≡ length times.now) × (length ahead.old ≡ length times.now) }
    ensures { IfSome result (λ s. Ahead (map C.clause clauses.now) floor paces.now times.now components passes ahead.new s) }
{
    let n = times.len();
    // There is no heap: the clauses of a component are the first of an array.
    let mut picked = [blank(clauses)?; 1024];
    // There is no heap: one drop for each of the most jobs.
    let mut drops: [u32; 256] = [0; 256];
    let drops = &mut drops[..n];
    ahead.copy_from_slice(times);
    let mut steps: u64 = 0;
    for component in 0..components {
        if 4611686018427387904 <= steps {
            return None;
        }
        let period = choose(component, paces, times, ahead, drops)?;
        let count = fill(clauses, paces, times, component, &mut picked[..]);
        steps += advance(
            &picked[..count],
            floor,
            period as usize,
            passes,
            drops,
            room,
            ahead,
        )?;
    }
    Some(steps)
}

// Makes `passes` passes over all clauses, by their components: their steps, or none and no change.
#[tactic(auto, using(crate::proofs::Merging::ahead_all))]
pub fn ahead_by<C: AsClause>(
    clauses: &[C],
    floor: i32,
    components: u16,
    paces: &[Pace],
    passes: u64,
    room: &mut Room<256>,
    times: &mut [i32],
) -> Option<u64>
    requires in_times { InTimes (map C.clause clauses.now) times.old }
    requires sizes { (length clauses.now ≤ 1024) × (length times.old ≤ 256) }
    requires paces_len { length paces.now ≡ length times.old }
    ensures { MatchOption result (times.new ≡ times.old) (λ s. (s < 2 ^ 63) × PassesMade (map C.clause clauses.now) floor times.old times.new s) }
{
    let n = times.len();
    // There is no heap: one time for each of the most jobs.
    let mut ahead: [i32; 256] = [0; 256];
    let ahead = &mut ahead[..n];
    let made = advance_components(
        clauses, floor, components, paces, passes, times, room, ahead,
    )?;
    if made < 1 || !all_allow(clauses, components, paces, times, passes) {
        return None;
    }
    times.copy_from_slice(ahead);
    Some(made)
}
