// Which components, periods and passes to try: a guess, which needs no proof, since the advance and the lines decide.
ghost use Rattle.std.specs.Prelude.{◌≡◌, ◌<◌, ◌≤◌, length, map, IfSome};
ghost use Rattle.maxatom.specs.Clauses.{arms_of};
ghost use Rattle.maxatom.specs.Inner.{InJobs};
ghost use Rattle.clauses.specs.Passes.{InTimes};

use crate::scratch::blank;
use accelerate::{fingerprint, later, period, plain_passes};
use clauses::{AsClause, fall, is_tautology, new_pass, pass_over, plus};
use maxatom::Arm;
use restriction::{Pace, all_allow, fill};

// More passes than are ever tried at once.
const MOST_PASSES: u64 = 1073741823;

// The first of the jobs joined with one. The forest of joined jobs is kept by number, each job with one that it is joined with, since
// there is no heap for nodes.
fn root(roots: &[usize], job: usize) -> usize
    requires { job < length roots.now }
    ensures { result < length roots.now }
{
    let mut first = job;
    for _ in roots {
        let next = roots[first];
        if next == first || roots.len() <= next {
            return first;
        }
        first = next;
    }
    first
}

// Joins two jobs and those joined with them.
fn join(roots: &mut [usize], a: usize, b: usize)
    requires { (a < length roots.old) × (b < length roots.old) }
{
    let p = root(roots, a);
    let q = root(roots, b);
    if p < q {
        roots[q] = p;
    } else {
        roots[p] = q;
    }
}

// An arm lies less than `minutes` minutes below a left side.
fn is_close(arm: Arm, left: i64, minutes: u32, times: &[i32]) -> bool
    requires { arm.job < length times.now }
{
    left < plus(times[usize::from(arm.job)], arm.offset) + i64::from(minutes)
}

// The job of arm `i`, where that arm lies less than `minutes` minutes below the left side.
fn close_job<C: AsClause>(c: &C, i: usize, left: i64, minutes: u32, times: &[i32]) -> Option<usize>
    requires in_jobs { InJobs (length times.now) (C.clause c.now) }
    requires in_range { i < length (arms_of (C.clause c.now)) }
    ensures { IfSome result (λ job. job < length times.now) }
{
    let arm = c.arm(i);
    if is_close(arm, left, minutes, times) {
        Some(usize::from(arm.job))
    } else {
        None
    }
}

// The job of the latest arm, which is the left side.
fn latest_job<C: AsClause>(c: &C, left: i64, times: &[i32]) -> usize
    requires { InJobs (length times.now) (C.clause c.now) }
    ensures { result < length times.now }
{
    for i in 0..c.arm_count() {
        if let Some(job) = close_job(c, i, left, 1, times) {
            return job;
        }
    }
    usize::from(c.target())
}

// Joins the jobs of a clause that may soon be violated: the job of its latest arm has lately fallen by more than the clause leaves free.
// An earlier arm's job is joined too where the latest one's has lately fallen by more than lies between the arms.
fn join_clause<C: AsClause>(c: &C, was: &[i32], times: &[i32], roots: &mut [usize])
    requires in_jobs { InJobs (length times.now) (C.clause c.now) }
    requires was_len { (length was.now ≡ length times.now) × (length roots.old ≡ length times.now) }
{
    if is_tautology(c) {
        return;
    }
    let target = usize::from(c.target());
    let left = c.left_side(times);
    let latest = latest_job(c, left, times);
    let fallen = fall(was[latest], times[latest]);
    if i64::from(times[target]) + i64::from(fallen) <= left {
        return;
    }
    for i in 0..c.arm_count() {
        if let Some(job) = close_job(c, i, left, fallen, times) {
            join(roots, job, target);
        }
    }
}

// Numbers the groups of joined jobs whose first job has fallen lately from 1 upward, as the components of their jobs; the others are in
// component 0. Answers how many components there are.
fn number(roots: &[usize], was: &[i32], times: &[i32], paces: &mut [Pace]) -> u16
    requires was_len { (length was.now ≡ length times.now) × (length roots.now ≡ length times.now) }
    requires paces_len { length paces.old ≡ length times.now }
{
    let mut components: u16 = 1;
    for (job, time) in times.iter().enumerate() {
        let first = root(roots, job);
        if first < job {
            paces[job].component = paces[first].component;
        } else if *time < was[job] {
            paces[job].component = components;
            components = components.saturating_add(1);
        } else {
            paces[job].component = 0;
        }
    }
    components
}

// Finds the components: jobs that a clause which may soon be violated joins. Answers how many there are.
pub fn label<C: AsClause>(clauses: &[C], was: &[i32], times: &[i32], paces: &mut [Pace]) -> u16
    requires in_times { InTimes (map C.clause clauses.now) times.now }
    requires few { length times.now ≤ 256 }
    requires was_len { (length was.now ≡ length times.now) × (length paces.old ≡ length times.now) }
{
    let n = times.len();
    let mut roots: [usize; 256] = [0; 256];
    let roots = &mut roots[..n];
    for (job, root) in roots.iter_mut().enumerate() {
        *root = job;
    }
    for c in clauses {
        join_clause(c, was, times, roots);
    }
    number(roots, was, times, paces)
}

// The passes until a job falls below the floor, if each job goes on as it has in the last 256.
pub fn passes_left(floor: i32, was: &[i32], times: &[i32]) -> u64
    requires { length was.now ≡ length times.now }
{
    let mut most = MOST_PASSES;
    for (before, now) in was.iter().zip(times) {
        let fallen = fall(*before, *now);
        if 0 < fallen {
            most = most.min(u64::from(fall(*now, floor)) * 256 / u64::from(fallen));
        }
    }
    most
}

// The passes that repeat in a component, 1 for a component at rest, or none where it takes too long to tell. The near times are to be the
// times.
fn find_period<C: AsClause>(
    clauses: &[C],
    floor: i32,
    patience: usize,
    fingerprints: &mut [u16],
    near: &mut [i32],
) -> Option<u32>
    requires in_times { InTimes (map C.clause clauses.now) near.old }
    requires few { length near.old ≤ 256 }
{
    // Steps are noted where readers are lent, so these are: no job has any.
    let readers = [0; 256];
    let mut look: usize = 16;
    // An index: the fingerprints are written, and those written so far are lent.
    for seen in 0..patience.min(fingerprints.len()) {
        let pass = pass_over(clauses, floor, 0, Some(&readers[..]), new_pass(0, 0), near).ok()?;
        if pass.steps == 0 {
            return (seen == 0).then_some(1);
        }
        fingerprints[seen] = fingerprint(pass);
        if look <= seen + 1 {
            if let Some(passes) = period(&fingerprints[..seen + 1], 65535) {
                return u32::try_from(passes).ok();
            }
            look = later(look);
        }
    }
    None
}

// The passes that leave a job at or above the floor, where it falls by `fallen` minutes in each period; none where it has no room for two
// periods.
fn allowed_by(floor: i32, t: i32, fallen: u32, period: u32) -> Option<u64> {
    if fallen == 0 {
        return Some(MOST_PASSES);
    }
    let repetitions = u64::from(fall(t, floor)) / u64::from(fallen);
    if repetitions < 2 {
        return None;
    }
    Some(MOST_PASSES.min((repetitions - 1).saturating_mul(u64::from(period))))
}

// Notes the period of a component's jobs, and their falls from the times to the near times. Answers the passes that leave them at or above
// the floor, or none.
fn note(
    component: u16,
    period: u32,
    floor: i32,
    near: &[i32],
    times: &[i32],
    paces: &mut [Pace],
) -> Option<u64>
    requires { (length near.now ≡ length times.now) × (length paces.old ≡ length times.now) }
{
    let mut most = MOST_PASSES;
    for (job, pace) in paces.iter_mut().enumerate() {
        if pace.component == component {
            let fallen = fall(times[job], near[job]);
            pace.period = period;
            pace.fall = fallen;
            most = most.min(allowed_by(floor, times[job], fallen, period)?);
        }
    }
    Some(most)
}

// Measures a component: the passes that leave it at or above the floor, or none where it does not repeat.
fn measure_component<C: AsClause>(
    clauses: &[C],
    floor: i32,
    patience: usize,
    component: u16,
    picked: &mut [C],
    fingerprints: &mut [u16],
    times: &[i32],
    paces: &mut [Pace],
) -> Option<u64>
    requires in_times { InTimes (map C.clause clauses.now) times.now }
    requires sizes { (length clauses.now ≤ length picked.old) × (length times.now ≤ 256) }
    requires paces_len { length paces.old ≡ length times.now }
{
    let n = times.len();
    let count = fill(clauses, paces, times, component, picked);
    let picked = &picked[..count];
    // There is no heap: one time for each of the most jobs.
    let mut near: [i32; 256] = [0; 256];
    let near = &mut near[..n];
    near.copy_from_slice(times);
    let period = find_period(picked, floor, patience, fingerprints, near)?;
    near.copy_from_slice(times);
    plain_passes(picked, floor, u64::from(period), near);
    note(component, period, floor, near, times, paces)
}

// Measures each component: the passes that leave all at or above the floor, or none where a component does not repeat.
pub fn measure<C: AsClause>(
    clauses: &[C],
    floor: i32,
    patience: usize,
    components: u16,
    times: &[i32],
    paces: &mut [Pace],
) -> Option<u64>
    requires in_times { InTimes (map C.clause clauses.now) times.now }
    requires sizes { (length clauses.now ≤ 1024) × (length times.now ≤ 256) }
    requires paces_len { length paces.old ≡ length times.now }
{
    // There is no heap: the clauses of a component are the first of an array.
    let mut picked = [blank(clauses)?; 1024];
    let mut fingerprints: [u16; 16384] = [0; 16384];
    let mut most = MOST_PASSES;
    for component in 0..components {
        let passes = measure_component(
            clauses,
            floor,
            patience,
            component,
            &mut picked[..],
            &mut fingerprints[..],
            times,
            paces,
        )?;
        most = most.min(passes);
    }
    Some(most)
}

// The passes, at most `most`, for which what is left of the clauses decides as they do, by halves.
pub fn longest<C: AsClause>(
    clauses: &[C],
    components: u16,
    paces: &[Pace],
    times: &[i32],
    most: u64,
) -> u64
    requires in_times { InTimes (map C.clause clauses.now) times.now }
    requires paces_len { length paces.now ≡ length times.now }
{
    let mut passes: u64 = 0;
    let mut more = most;
    // No index: each step is half the one before.
    while 0 < more {
        if more <= most - passes && all_allow(clauses, components, paces, times, passes + more) {
            passes += more;
        }
        more /= 2;
    }
    passes
}
