// The tight test.
ghost use Rattle.std.specs.Prelude.{◌≡◌};
ghost use Rattle.maxatom.specs.Book.{book};
ghost use Rattle.derivation.specs.Calls.{tight_call};
ghost use Rattle.derivation.specs.Replies.{tight_reply};

use crate::checks::check;
use derivation::{Fault, Refusal};
use maxatom::Rule;
use solver::is_equality;

// Tight test. Any times, any rule number.
#[tactic(auto, using(crate::proofs::Answering::tight_refused))]
pub fn is_tight(
    n: usize,
    rules: &[Rule],
    latest: &[i32],
    times: &[i32],
    number: usize,
) -> Result<bool, Refusal>
    ensures { tight_reply result ≡ tight_call (book n latest.now rules.now) times.now number }
{
    check(n, rules, latest, times)?;
    let r = rules.get(number).ok_or(Fault::NoSuchRule)?;
    Ok(is_equality(*r, times))
}
