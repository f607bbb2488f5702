// One rule at an assignment.
ghost use Rattle.std.specs.Prelude.{◌≡◌, length, set};
ghost use Rattle.std.specs.Int.{w32};
ghost use Rattle.std.proofs.Common.{SFits};
ghost use Rattle.maxatom.specs.Rule.{left_side, satisfied, tight};
ghost use Rattle.maxatom.specs.Clauses.{clause_of};
ghost use Rattle.maxatom.specs.Inner.{InJobs};
ghost use Rattle.derivation.specs.Step.{slip_of};

use clauses::AsClause;
use maxatom::{Rule, Slip};

// max(x, y) + k.
#[tactic(auto, using(maxatom::proofs::Rules::left_same))]
pub fn left_side(r: Rule, times: &[i32]) -> i64
    requires { InJobs (length times.now) (clause_of r) }
    ensures { result ≡ left_side r times.now }
{
    r.left_side(times)
}

#[tactic(auto, using(maxatom::proofs::Rules::kept_same))]
pub fn is_satisfied(r: Rule, times: &[i32]) -> bool
    requires { InJobs (length times.now) (clause_of r) }
    ensures { result ≡ satisfied r times.now }
{
    clauses::is_satisfied(&r, times)
}

// The rule is an equality at the times: it is tight.
pub fn is_equality(r: Rule, times: &[i32]) -> bool
    requires { InJobs (length times.now) (clause_of r) }
    ensures { result ≡ tight r times.now }
{
    i64::from(times[r.z as usize]) == left_side(r, times)
}

// Sets z's time to the rule's left side, and tells what that takes off.
pub fn lower(r: Rule, times: &mut [i32]) -> Slip
    requires in_jobs { InJobs (length times.old) (clause_of r) }
    requires fits { SFits w32 (left_side r times.old) }
    ensures told { result ≡ slip_of r times.old }
    ensures times_after { times.new ≡ set times.old r.z (left_side r times.old) }
{
    let after = left_side(r, times) as i32;
    let time = &mut times[r.z as usize];
    let before = *time;
    *time = after;
    Slip {
        job: r.z,
        before,
        after,
    }
}
