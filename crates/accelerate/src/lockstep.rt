// The lockstep test: two assignments go through the passes side by side, the near one and the far one, with the same decisions.
ghost use Rattle.std.specs.Prelude.{◌≡◌, Bool, true, [], ◌∷◌, length, map, ℤ, ◌<ℤ◌, ◌≤ℤ◌, IfSome};
ghost use Rattle.maxatom.specs.Inner.{InJobs};
ghost use Rattle.maxatom.specs.Passes.{Lockstep};
ghost use Rattle.clauses.specs.Passes.{InTimes};
ghost use Rattle.accelerate.specs.Acceleration.{InLockstep};

use clauses::{AsClause, one_reaches};

// A left side is below its target's time, and not below the floor.
fn is_steppable(left: i64, time: i32, floor: i32) -> bool
    ensures { result ≡ true → (left <ℤ time) × (floor ≤ℤ left) }
{
    left < i64::from(time) && i64::from(floor) <= left
}

// Passes over one clause at both assignments, and answers its steps: none, where one arm keeps it at both; or one, where it is violated at
// both and one arm is the largest at both. None where the decisions differ or a time would fall below the floor.
fn lockstep_on<C: AsClause>(c: &C, floor: i32, near: &mut [i32], far: &mut [i32]) -> Option<u64>
    requires { InJobs (length near.old) (C.clause c.now) × InJobs (length far.old) (C.clause c.now) }
    ensures { IfSome result (λ s. Lockstep floor (C.clause c.now ∷ []) near.old far.old near.new far.new s) }
{
    let z = c.target() as usize;
    if one_reaches(c, i64::from(near[z]), i64::from(far[z]), near, far) {
        return Some(0);
    }
    let a = c.left_side(near);
    let b = c.left_side(far);
    if is_steppable(a, near[z], floor)
        && is_steppable(b, far[z], floor)
        && one_reaches(c, a, b, near, far)
    {
        near[z] = a as i32;
        far[z] = b as i32;
        return Some(1);
    }
    None
}

// Makes one pass in lockstep, and answers its steps. None where the decisions differ or a time would fall below the floor.
fn lockstep<C: AsClause>(
    clauses: &[C],
    floor: i32,
    near: &mut [i32],
    far: &mut [i32],
) -> Option<u64>
    requires in_near { InTimes (map C.clause clauses.now) near.old }
    requires in_far { InTimes (map C.clause clauses.now) far.old }
    ensures { IfSome result (λ s. Lockstep floor (map C.clause clauses.now) near.old far.old near.new far.new s) }
{
    let mut steps = 0;
    for c in clauses {
        steps += lockstep_on(c, floor, near, far)?;
    }
    Some(steps)
}

// Makes `passes` passes in lockstep, each with a step, and answers their steps.
pub fn lockstep_passes<C: AsClause>(
    clauses: &[C],
    floor: i32,
    passes: usize,
    near: &mut [i32],
    far: &mut [i32],
) -> Option<u64>
    requires in_near { InTimes (map C.clause clauses.now) near.old }
    requires in_far { InTimes (map C.clause clauses.now) far.old }
    ensures { IfSome result (λ s. InLockstep (map C.clause clauses.now) floor near.old far.old near.new far.new passes s) }
{
    let mut steps: u64 = 0;
    for _i in 0..passes {
        let made = lockstep(clauses, floor, near, far)?;
        if made < 1 || 4294967296 <= made || 4294967296 <= steps {
            return None;
        }
        steps += made;
    }
    Some(steps)
}
