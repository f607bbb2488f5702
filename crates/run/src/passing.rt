// One pass of a run: over all clauses, or over those in dirty blocks.
ghost use Rattle.std.specs.Prelude.{◌≡◌, ℕ, ◌+◌, ◌<◌, ◌≤◌, ◌^◌, length, map, get_or, IfOk};
ghost use Rattle.std.specs.Option.{ForSome};
ghost use Rattle.maxatom.specs.Clauses.{Clause};
ghost use Rattle.clauses.specs.Passes.{InTimes, PassEnds};
ghost use Rattle.run.specs.Blocks.{Reads, Settled};
ghost use Rattle.run.specs.Running.{Runnable, LastStep, PassMade};

use crate::blocks::{cleaned, is_dirty};
use clauses::{AsClause, Pass, Stop, new_pass, pass_over};
use maxatom::Slip;

// A job fell below the floor: the steps of the run with the last one, and the slip of that one.
#[derive(Clone, Copy)]
pub struct Fall {
    pub steps: u64,
    pub slip: Slip,
}

// A pass over the dirty blocks: the clauses of the others are satisfied. The pass that it begins with has the blocks that are dirty.
fn pass_dirty<C: AsClause>(
    clauses: &[C],
    floor: i32,
    readers: &[u64],
    start: Pass,
    times: &mut [i32],
) -> Result<Pass, Stop>
    requires in_times { InTimes (map C.clause clauses.now) times.old }
    requires sizes { (length clauses.now ≤ 1024) × (length times.old ≤ length readers.now) × (start.steps ≤ 2 ^ 62) }
    requires reads { Reads (map C.clause clauses.now) readers.now }
    requires settled { Settled (map C.clause clauses.now) times.old start.dirty }
    ensures ends { PassEnds floor (map C.clause clauses.now) times.old start.steps times.new result }
    ensures settled_after { IfOk result (λ p. Settled (map C.clause clauses.now) times.new p.dirty) }
{
    let mut pass = start;
    for block in 0..clauses.len().div_ceil(16) {
        if is_dirty(pass.dirty, block) {
            pass.dirty = cleaned(pass.dirty, block);
            let from = block * 16;
            let to = (from + 16).min(clauses.len());
            match pass_over(&clauses[from..to], floor, from, Some(readers), pass, times) {
                Ok(p) => pass = p,
                Err(low) => {
                    return Err(Stop {
                        at: from + low.at,
                        steps: low.steps,
                    });
                }
            }
        }
    }
    Ok(pass)
}

// A pass over the dirty blocks where these are handed over, else over all clauses, noted where each job's readers are lent.
fn pass_needed<C: AsClause>(
    clauses: &[C],
    floor: i32,
    readers: Option<&[u64]>,
    dirty: Option<u64>,
    steps: u64,
    times: &mut [i32],
) -> Result<Pass, Stop>
    requires in_times { InTimes (map C.clause clauses.now) times.old }
    requires sizes { (length clauses.now ≤ 1024) × (steps ≤ 2 ^ 62) }
    requires reads { ForSome readers (λ r. (length times.old ≤ length r.now) × Reads (map C.clause clauses.now) r.now) }
    requires settled { ForSome dirty (λ d. Settled (map C.clause clauses.now) times.old d) }
    ensures ends { PassEnds floor (map C.clause clauses.now) times.old steps times.new result }
    ensures settled_after { ForSome readers.entry (λ r. IfOk result (λ p. Settled (map C.clause clauses.now) times.new p.dirty)) }
{
    if let (Some(r), Some(d)) = (readers, dirty) {
        return pass_dirty(clauses, floor, r, new_pass(steps, d), times);
    }
    pass_over(clauses, floor, 0, readers, new_pass(steps, 0), times)
}

// Takes the step that takes a job below the floor, the last one of a run.
fn last_step<C: AsClause>(clauses: &[C], floor: i32, low: Stop, times: &mut [i32]) -> Fall
    requires runnable { Runnable floor (map C.clause clauses.now) times.old }
    requires low { (low.at < length clauses.now) × (low.steps < 2 ^ 63) }
    ensures { (c : Clause) → LastStep (get_or (map C.clause clauses.now) low.at c) times.old times.new low.steps result }
{
    let c = clauses[low.at];
    let z = c.target();
    let left = c.left_side(times) as i32;
    let time = &mut times[z as usize];
    let before = *time;
    *time = left;
    Fall {
        steps: low.steps + 1,
        slip: Slip {
            job: z,
            before,
            after: left,
        },
    }
}

// One pass of a run over all clauses, with the last step where a job falls. Nothing is noted, and the loop over the clauses stands in the
// run's own: the passes of a short run over few clauses would take as long to call as to make.
pub fn plain_pass<C: AsClause>(
    clauses: &[C],
    floor: i32,
    steps: u64,
    times: &mut [i32],
) -> Result<Pass, Fall>
    requires runnable { Runnable floor (map C.clause clauses.now) times.old }
    requires steps_bound { steps ≤ 2 ^ 62 }
    ensures pass_made { PassMade floor (map C.clause clauses.now) times.old steps times.new result }
{
    match pass_over(clauses, floor, 0, None, new_pass(steps, 0), times) {
        Ok(p) => Ok(p),
        Err(low) => Err(last_step(clauses, floor, low, times)),
    }
}

// One pass of a run, with the last step where a job falls: over the dirty blocks where these are handed over, else over all clauses.
#[inline(never)]
pub fn one_pass<C: AsClause>(
    clauses: &[C],
    floor: i32,
    readers: Option<&[u64]>,
    dirty: Option<u64>,
    steps: u64,
    times: &mut [i32],
) -> Result<Pass, Fall>
    requires runnable { Runnable floor (map C.clause clauses.now) times.old }
    requires steps_bound { steps ≤ 2 ^ 62 }
    requires reads { ForSome readers (λ r. (length times.old ≤ length r.now) × Reads (map C.clause clauses.now) r.now) }
    requires settled { ForSome dirty (λ d. Settled (map C.clause clauses.now) times.old d) }
    ensures pass_made { PassMade floor (map C.clause clauses.now) times.old steps times.new result }
    ensures settled_after { ForSome readers.entry (λ r. IfOk result (λ p. Settled (map C.clause clauses.now) times.new p.dirty)) }
{
    match pass_needed(clauses, floor, readers, dirty, steps, times) {
        Ok(p) => Ok(p),
        Err(low) => Err(last_step(clauses, floor, low, times)),
    }
}
