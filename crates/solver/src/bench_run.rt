// The bench run of a book.
ghost use Rattle.std.specs.Prelude.{◌≡◌, length};
ghost use Rattle.maxatom.specs.Book.{book, total};
ghost use Rattle.maxatom.specs.Accepted.{Accepted};
ghost use Rattle.derivation.specs.Run.{solve};
ghost use Rattle.derivation.specs.Inner.{SolvedAs};

use derivation::Solved;
use maxatom::Rule;
use slices::copy;
use table::{floor, smallest};

// The bench run of an accepted book, whose K is k. The lent times hold the assignment as it stood at the end.
pub fn solve(rules: &[Rule], latest: &[i32], k: u32, times: &mut [i32]) -> Solved
    requires accepted { Accepted (book (length latest.now) latest.now rules.now) }
    requires room { length times.old ≡ length latest.now }
    requires k_value { k ≡ total rules.now }
    ensures { SolvedAs (solve (book (length latest.now) latest.now rules.now)) result times.new }
{
    copy(latest, times);
    match run::run(rules, floor(smallest(latest), k), times) {
        Ok(steps) => Solved::Plan(steps),
        Err(fall) => Solved::None(fall.steps, fall.slip),
    }
}
