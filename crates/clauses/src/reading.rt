// One clause at an assignment.
ghost use Rattle.std.specs.Prelude.{◌≡◌, Bool, true, length, ℤ};
ghost use Rattle.maxatom.specs.Rule.{time_at};
ghost use Rattle.maxatom.specs.Clauses.{kept};
ghost use Rattle.maxatom.specs.Inner.{InJobs};
ghost use Rattle.clauses.specs.Passes.{OneReaches, tautology};

use crate::clause::AsClause;
use crate::minutes::plus;

pub fn is_satisfied<C: AsClause>(c: &C, times: &[i32]) -> bool
    requires { InJobs (length times.now) (C.clause c.now) }
    ensures { result ≡ kept (C.clause c.now) times.now }
{
    i64::from(times[c.target() as usize]) <= c.left_side(times)
}

// Some arm reaches `a` at the near times and `b` at the far ones.
pub fn one_reaches<C: AsClause>(c: &C, a: i64, b: i64, near: &[i32], far: &[i32]) -> bool
    requires { InJobs (length near.now) (C.clause c.now) × InJobs (length far.now) (C.clause c.now) }
    ensures { result ≡ true → OneReaches (C.clause c.now) a b near.now far.now }
{
    for i in 0..c.arm_count() {
        let arm = c.arm(i);
        let job = arm.job as usize;
        if a <= plus(near[job], arm.offset) && b <= plus(far[job], arm.offset) {
            return true;
        }
    }
    false
}

// Some arm is the target with an offset of zero or more: no times violate the clause.
pub fn is_tautology<C: AsClause>(c: &C) -> bool
    ensures { result ≡ tautology (C.clause c.now) }
{
    for i in 0..c.arm_count() {
        let arm = c.arm(i);
        let reaches = 0 <= arm.offset;
        if reaches && arm.job == c.target() {
            return true;
        }
    }
    false
}
