// The bench run.
ghost use Rattle.maxatom.specs.Book.{book};
ghost use Rattle.derivation.specs.Replies.{SolvedCall};

use crate::checks::check;
use derivation::{Refusal, Solved};
use maxatom::Rule;

// Bench run: plan or none. The lent times then hold the board as it stood at the end.
pub fn solve(n: usize, rules: &[Rule], latest: &[i32], times: &mut [i32]) -> Result<Solved, Refusal>
    ensures { SolvedCall (book n latest.now rules.now) times.old result times.new }
{
    let k = check(n, rules, latest, times)?;
    Ok(solver::solve(rules, latest, k, times))
}
