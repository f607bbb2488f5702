// The kept test.
ghost use Rattle.std.specs.Prelude.{◌≡◌, not, length, All, position};
ghost use Rattle.maxatom.specs.Rule.{satisfied};
ghost use Rattle.maxatom.specs.Book.{book};
ghost use Rattle.maxatom.specs.Clauses.{clause_of};
ghost use Rattle.maxatom.specs.Inner.{InJobs};
ghost use Rattle.derivation.specs.Calls.{model_check_call};
ghost use Rattle.derivation.specs.Replies.{model_check_reply};

use crate::checks::check;
use derivation::Refusal;
use maxatom::Rule;
use solver::is_satisfied;

// The number of the first violated rule.
fn find_violated(rules: &[Rule], times: &[i32]) -> Option<usize>
    requires { All (λ r. InJobs (length times.now) (clause_of r)) rules.now }
    ensures { result ≡ position (λ r. not (satisfied r times.now)) rules.now }
{
    rules.iter().position(|r| !is_satisfied(*r, times))
}

// Kept test: every rule is satisfied, or the first violated one. Any times.
#[tactic(auto, using(crate::proofs::Answering::kept_refused))]
pub fn first_violated(
    n: usize,
    rules: &[Rule],
    latest: &[i32],
    times: &[i32],
) -> Result<Option<usize>, Refusal>
    ensures { model_check_reply result ≡ model_check_call (book n latest.now rules.now) times.now }
{
    check(n, rules, latest, times)?;
    Ok(find_violated(rules, times))
}
