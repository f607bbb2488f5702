// Components of the clauses that share no job, or whose clauses between them cannot matter, each advanced for itself.
//
// That the clauses name jobs of the times, that there is a pace for each job, and how many there are, are requirements and no types:
// clauses, times and paces are slices that callers lend, and a struct of them would be made anew for each component. The number of
// components stands beside the paces, since the definitions speak of each apart, and the floor beside the clauses, since it is that of the
// whole run where the clauses are those of a component.

#![tactic(auto)]

mod advancing;
mod guessing;
mod scratch;

ghost use Rattle.std.specs.Prelude.{◌≡◌, true, ◌≤◌, length, map};
ghost use Rattle.clauses.specs.Passes.{InTimes};
ghost use Rattle.accelerate.specs.Acceleration.{PassesMade};

use crate::advancing::ahead_by;
use crate::guessing::{label, longest, measure, passes_left};
use accelerate::{Room, Watch, later};
use clauses::{AsClause, Pass};
use restriction::Pace;

// What arrays of paces hold before they are filled.
const NO_PACE: Pace = Pace {
    component: 0,
    period: 0,
    fall: 0,
};

// The times 256 passes before the next try of the components, the passes since the last try, and those to wait for the next. The times are
// in an array as long as the most jobs, since there is no heap.
#[derive(Drop)]
pub struct Waiting {
    pub was: [i32; 256],
    pub since: usize,
    pub wait: usize,
}

// The components that were found, and the passes to try.
#[derive(Clone, Copy)]
struct Found {
    components: u16,
    most: u64,
}

// Passes enough to be worth the try, after `wait` passes that were not taken at once.
fn enough(passes: u64, wait: usize) -> bool
    ensures { result ≡ true → 1 ≤ passes }
{
    1024 + (wait as u64) / 16 <= passes
}

// Makes passes by components, as many as the tests allow, up to the most: their steps.
#[tactic(auto, using(accelerate::proofs::Repetitions::made_none, accelerate::proofs::Repetitions::made_then))]
fn advance_apart<C: AsClause>(
    clauses: &[C],
    floor: i32,
    wait: usize,
    found: Found,
    paces: &[Pace],
    room: &mut Room<256>,
    times: &mut [i32],
) -> u64
    requires in_times { InTimes (map C.clause clauses.now) times.old }
    requires sizes { (length clauses.now ≤ 1024) × (length times.old ≤ 256) }
    requires paces_len { length paces.now ≡ length times.old }
    ensures { PassesMade (map C.clause clauses.now) floor times.old times.new result }
{
    let mut steps: u64 = 0;
    let mut left = found.most;
    let mut passes = left;
    // No index: each try is of at most half the passes of the one before.
    while enough(passes, wait) && steps < 4611686018427387904 {
        if let Some(made) = ahead_by(clauses, floor, found.components, paces, passes, room, times) {
            steps += made;
            left = left.saturating_sub(passes);
        }
        passes = left.min(passes / 2);
    }
    steps
}

// More than one component that falls, beside the one that may not, and few for the wait, since each takes time to measure.
fn are_few(components: u16, wait: usize) -> bool {
    3 <= components && usize::from(components) <= wait / 32
}

// Guesses the components and measures them; none where no passes are worth a try.
fn find_components<C: AsClause>(
    clauses: &[C],
    floor: i32,
    wait: usize,
    was: &[i32],
    times: &[i32],
    paces: &mut [Pace],
) -> Option<Found>
    requires in_times { InTimes (map C.clause clauses.now) times.now }
    requires sizes { (length clauses.now ≤ 1024) × (length times.now ≤ 256) }
    requires was_len { (length was.now ≡ length times.now) × (length paces.old ≡ length times.now) }
{
    let components = label(clauses, was, times, paces);
    if !are_few(components, wait) || !enough(passes_left(floor, was, times), wait) {
        return None;
    }
    let high = measure(clauses, floor, wait, components, times, paces)?;
    let most = longest(clauses, components, paces, times, high);
    Some(Found { components, most })
}

// Finds the components and advances them: the steps taken.
#[tactic(auto, using(accelerate::proofs::Repetitions::made_none))]
fn apart<C: AsClause>(
    clauses: &[C],
    floor: i32,
    wait: usize,
    was: &[i32],
    room: &mut Room<256>,
    times: &mut [i32],
) -> u64
    requires in_times { InTimes (map C.clause clauses.now) times.old }
    requires sizes { (length clauses.now ≤ 1024) × (length times.old ≤ 256) }
    requires was_len { length was.now ≡ length times.old }
    ensures { PassesMade (map C.clause clauses.now) floor times.old times.new result }
{
    let n = times.len();
    // There is no heap: one pace for each of the most jobs.
    let mut paces = [NO_PACE; 256];
    let paces = &mut paces[..n];
    match find_components(clauses, floor, wait, was, times, paces) {
        Some(found) => advance_apart(clauses, floor, wait, found, paces, room, times),
        None => 0,
    }
}

// After a pass: now and then tries the components. What the times were 256 passes before tells which jobs fall together.
#[tactic(auto, using(accelerate::proofs::Repetitions::made_none))]
fn try_apart<C: AsClause>(
    clauses: &[C],
    floor: i32,
    waiting: &mut Waiting,
    room: &mut Room<256>,
    times: &mut [i32],
) -> u64
    requires in_times { InTimes (map C.clause clauses.now) times.old }
    requires sizes { (length clauses.now ≤ 1024) × (length times.old ≤ 256) }
    ensures { PassesMade (map C.clause clauses.now) floor times.old times.new result }
{
    let n = times.len();
    if waiting.since < waiting.wait {
        if waiting.wait - waiting.since == 256 {
            waiting.was[..n].copy_from_slice(times);
        }
        waiting.since += 1;
        return 0;
    }
    let steps = apart(clauses, floor, waiting.wait, &waiting.was[..n], room, times);
    waiting.since = 0;
    waiting.wait = if 0 < steps { 512 } else { later(waiting.wait) };
    steps
}

// After a pass, whose steps are `pass.steps`: passes that repeat are taken at once, or else now and then those of the components. Answers
// their steps.
pub fn advance_on<C: AsClause, const M: usize>(
    clauses: &[C],
    floor: i32,
    pass: Pass,
    watch: &mut Watch<M>,
    waiting: &mut Waiting,
    room: &mut Room<256>,
    times: &mut [i32],
) -> u64
    requires in_times { InTimes (map C.clause clauses.now) times.old }
    requires sizes { (length clauses.now ≤ 1024) × (length times.old ≤ 256) }
    ensures { PassesMade (map C.clause clauses.now) floor times.old times.new result }
{
    let repeated = accelerate::watch(clauses, floor, pass, watch, room, times);
    if 0 < repeated {
        waiting.since = 0;
        return repeated;
    }
    let steps = try_apart(clauses, floor, waiting, room, times);
    if 0 < steps {
        watch.seen = 0;
        watch.look = 16;
        watch.rest = 0;
    }
    steps
}
