// Blocks of 16 clauses, a bit each in one word: a block is dirty where one of its clauses may be violated. A satisfied clause stays so
// until the job of one of its arms is lowered.
ghost use Rattle.std.specs.Prelude.{◌≡◌, true, ℕ, ◌<◌, ◌≤◌, length, map};
ghost use Rattle.maxatom.specs.Book.{Each};
ghost use Rattle.maxatom.specs.Inner.{InJobs};
ghost use Rattle.clauses.specs.Bits.{HasBlock};
ghost use Rattle.run.specs.Blocks.{Reads};

use clauses::AsClause;

pub fn is_dirty(word: u64, block: usize) -> bool
    requires { block < 64 }
    ensures { HasBlock word block → result ≡ true }
{
    (word >> block) % 2 == 1
}

// The word without the bit of a block that has one.
pub fn cleaned(word: u64, block: usize) -> u64
    requires { block < 64 }
    ensures { (b : ℕ) → (b ≡ block → ⊥) → HasBlock word b → HasBlock result b }
{
    word ^ (1 << block)
}

// Adds to each job's word the blocks of the clauses that read the job. The words are lent: an array handed back is copied twice on its way.
pub fn index<C: AsClause>(clauses: &[C], readers: &mut [u64; 256])
    requires count_bound { length clauses.now ≤ 1024 }
    requires in_jobs { Each (InJobs 256) (map C.clause clauses.now) }
    ensures { Reads (map C.clause clauses.now) readers.new }
{
    for (i, c) in clauses.iter().enumerate() {
        let bit = 1 << (i / 16);
        for j in 0..c.arm_count() {
            readers[c.arm(j).job as usize] |= bit;
        }
    }
}
