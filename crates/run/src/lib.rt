// A run from given times: passes over the clauses, a step on each violated one, until a pass without a step or a fall below the floor.
//
// That the clauses' jobs are jobs of the times, and the times between the floor and zero, is a requirement and no type: the clauses and
// the times come from two borrowed slices, and a struct of both with that invariant would have to hold it at each write of a time.

#![tactic(auto)]

mod blocks;
mod passing;

ghost use Rattle.std.specs.Prelude.{◌≡◌, true, ℕ, ◌<◌, ◌≤◌, ◌^◌, map};
ghost use Rattle.std.specs.Option.{ForSome};
ghost use Rattle.maxatom.specs.Runs.{passes, room as room_of, run as run_of};
ghost use Rattle.run.specs.Running.{Runnable, end_of};

use crate::blocks::index;
use crate::passing::{one_pass, plain_pass};
use accelerate::{Room, Watch, few};
use clauses::{AsClause, Pass};
use components::{Waiting, advance_on};
pub use passing::Fall;

// The dirty blocks, where the next pass is to visit them alone. Their bits are valid where the pass noted them and no passes were taken at
// once after it, and they pay where few clauses were stepped on.
fn dirty_after(noted: bool, taken: u64, made: u64, count: usize, dirty: u64) -> Option<u64>
    ensures { ForSome result (λ d. (noted ≡ true) × (taken ≡ 0) × (d ≡ dirty)) }
{
    (noted && taken == 0 && few(made, count)).then_some(dirty)
}

// The rest of a run that is long, after `start` steps: each pass is watched, and passes that repeat are taken at once. A short run never
// lays out the room that this takes.
#[inline(never)]
fn finish<C: AsClause>(
    clauses: &[C],
    floor: i32,
    start: u64,
    times: &mut [i32],
) -> Result<u64, Fall>
    requires runnable { Runnable floor (map C.clause clauses.now) times.old }
    requires start_bound { start ≤ 2 ^ 38 }
    ensures { (n : ℕ) → room_of floor times.old < n → end_of result times.new ≡ passes n floor (map C.clause clauses.now) times.old start }
{
    // There is no heap: one word for each of the most jobs.
    let mut readers = [0; 256];
    index(clauses, &mut readers);
    let mut watch = Watch {
        fingerprints: [0; 32768],
        seen: 0,
        look: 16,
        rest: 0,
    };
    let mut waiting = Waiting {
        was: [0; 256],
        since: 0,
        wait: 512,
    };
    let mut room = Room {
        near: [0; 256],
        far: [0; 256],
    };
    let mut steps = start;
    let mut dirty = None;
    // A loop with no bound that the code knows: each pass makes a step, and the proof bounds these.
    loop {
        let noted = watch.rest == 0;
        let p = one_pass(
            clauses,
            floor,
            noted.then_some(&readers[..]),
            dirty,
            steps,
            times,
        )?;
        let made = p.steps - steps;
        if made == 0 {
            return Ok(p.steps);
        }
        let pass = Pass { steps: made, ..p };
        let taken = advance_on(
            clauses,
            floor,
            pass,
            &mut watch,
            &mut waiting,
            &mut room,
            times,
        );
        if few(made, clauses.len()) {
            watch.rest = 0;
        }
        dirty = dirty_after(noted, taken, made, clauses.len(), p.dirty);
        steps = p.steps + taken;
    }
}

// Dirty bits pay, after 16 passes, where a pass makes few steps.
fn pays(passes: usize, made: u64, count: usize) -> bool {
    16 <= passes && few(made, count)
}

// The number of plain passes before the watching, which takes some room, pays: more where the clauses are few.
fn unwatched_passes(count: usize) -> usize
    requires { count ≤ 1024 }
{
    16 + 8192_usize.div_ceil(count + 1)
}

// A run from the times: plain passes, and for a long run then the watched ones. It answers the steps of a plan, or the fall, and the lent
// times hold what the run left.
pub fn run<C: AsClause>(clauses: &[C], floor: i32, times: &mut [i32]) -> Result<u64, Fall>
    requires { Runnable floor (map C.clause clauses.now) times.old }
    ensures { end_of result times.new ≡ run_of floor (map C.clause clauses.now) times.old }
{
    let mut steps = 0;
    for i in 0..unwatched_passes(clauses.len()) {
        let p = plain_pass(clauses, floor, steps, times)?;
        if p.steps == steps {
            return Ok(p.steps);
        }
        let made = p.steps - steps;
        steps = p.steps;
        if pays(i, made, clauses.len()) {
            break;
        }
    }
    finish(clauses, floor, steps, times)
}
