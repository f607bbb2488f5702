// Passes over one assignment, and their steps.
ghost use Rattle.std.specs.Prelude.{◌≡◌, ℕ, ◌<◌, ◌≤◌, ◌^◌, length, map, ℤ, IfSome};
ghost use Rattle.maxatom.specs.Passes.{Walk, Passing};
ghost use Rattle.clauses.specs.Passes.{InTimes};

use clauses::{AsClause, Pass, new_pass, pass_over};

// Makes one pass. None before a job would fall below the floor.
pub fn plain_pass<C: AsClause>(clauses: &[C], floor: i32, times: &mut [i32]) -> Option<Pass>
    requires in_times { InTimes (map C.clause clauses.now) times.old }
    ensures walked { IfSome result (λ p. Walk floor (map C.clause clauses.now) times.old times.new p.steps) }
{
    pass_over(clauses, floor, 0, None, new_pass(0, 0), times).ok()
}

// Makes `passes` passes, and answers their steps. None before a job would fall below the floor, and after a pass without a step.
pub fn plain_passes<C: AsClause>(
    clauses: &[C],
    floor: i32,
    passes: u64,
    times: &mut [i32],
) -> Option<u64>
    requires in_times { InTimes (map C.clause clauses.now) times.old }
    ensures passing { IfSome result (λ s. Passing floor (map C.clause clauses.now) 1 times.old times.new passes s) }
    ensures steps_bound { IfSome result (λ s. s < 2 ^ 63) }
{
    let mut steps: u64 = 0;
    for _i in 0..passes {
        let pass = plain_pass(clauses, floor, times)?;
        if pass.steps < 1 || 4611686018427387904 <= pass.steps || 4611686018427387904 <= steps {
            return None;
        }
        steps += pass.steps;
    }
    Some(steps)
}
