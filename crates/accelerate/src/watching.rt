// Which passes to try: a guess from the fingerprints of the last passes. It needs no proof, since the lockstep test decides.
ghost use Rattle.std.specs.Prelude.{◌≡◌, ℕ, ◌*◌, ◌<◌, ◌≤◌, length, map, ℤ};
ghost use Rattle.clauses.specs.Passes.{InTimes};
ghost use Rattle.accelerate.specs.Acceleration.{PassesMade};

use crate::accelerating::accelerate_guessed;
use crate::room::{Room, Watch};
use clauses::{AsClause, Pass};

// The fingerprint of a pass: its steps and the last of them in the low half, the minutes in the high half.
pub fn fingerprint(pass: Pass) -> u16 {
    ((pass.steps % 1024 + (pass.last as u64) % 1024 * 7) % 251 + (pass.minutes % 251) * 256) as u16
}

// The number of fingerprints of the later half, from the last one back, that equal those `p` before them in the bits of the mask. The mask
// is data, all bits or the low half, and chooses no step.
fn alike(fingerprints: &[u16], p: usize, mask: u16) -> usize
    requires { 2 * p ≤ length fingerprints.now }
{
    let seen = fingerprints.len();
    let half = seen / 2;
    // The fingerprints are read at two places, from the last one back, so by their numbers.
    for i in 0..half {
        let last = seen - 1 - i;
        if (fingerprints[last] & mask) != (fingerprints[last - p] & mask) {
            return i;
        }
    }
    half
}

// The number of fingerprints that a look may find alike in vain: 32 for each fingerprint seen.
fn patience(seen: usize) -> usize {
    seen.min(65536) * 32
}

// The least number of passes that repeat. None where there is none, or it takes too long to tell.
pub fn period(fingerprints: &[u16], mask: u16) -> Option<usize> {
    let half = fingerprints.len() / 2;
    let mut left = patience(fingerprints.len());
    for p in 1..=half {
        let same = alike(fingerprints, p, mask);
        if half <= same {
            return Some(p);
        }
        left = left.checked_sub(same)?;
    }
    None
}

// The passes to wait for the next look or try, after a wait in vain.
pub fn later(wait: usize) -> usize
    ensures doubled { wait < 1048576 → result ≡ 2 * wait }
    ensures kept { 1048576 ≤ wait → result ≡ wait }
{
    if wait < 1048576 { wait * 2 } else { wait }
}

// The number of fingerprints to see before the first look after repetitions of `passes` passes.
fn first_look(passes: usize) -> usize {
    later(passes).max(16)
}

// A pass made few steps for its clauses.
pub fn few(steps: u64, count: usize) -> bool {
    steps < (count as u64) / 8
}

// The look was worth its time: the `taken` steps make up, at `made` steps a pass, at least half as many passes as those seen.
fn is_long(taken: u64, made: u64, look: usize) -> bool {
    0 < made && (look as u64) / 2 <= taken / made
}

// The number of passes to let go unwatched after a look: noting costs time for each step, so none where the steps are few.
fn unwatched(made: u64, count: usize, look: usize) -> usize {
    if few(made, count) { 0 } else { later(look) }
}

// A second guess, where it is another one than the first.
fn other(first: Option<usize>, second: Option<usize>) -> Option<usize> {
    if first == second { None } else { second }
}

impl<const M: usize> Watch<M> {
    // Goes on after a look at passes of `made` steps each that took `taken` steps at once, as repetitions of `passes` passes: from the
    // start where these are long; else it looks later, and keeps its fingerprints only where no step was taken and no passes go unwatched.
    fn go_on(&mut self, taken: u64, passes: Option<usize>, made: u64, count: usize) {
        if is_long(taken, made, self.look) {
            self.seen = 0;
            self.look = passes.map_or(16, first_look);
            self.rest = 0;
            return;
        }
        self.rest = unwatched(made, count, self.look);
        if 0 < taken || 0 < self.rest {
            self.seen = 0;
        }
        self.look = later(self.look);
    }
}

// Looks for passes that repeat, and takes repetitions of them at once. They may repeat to the minute, or, in the low half of the
// fingerprints, in their steps.
fn look_back<C: AsClause, const M: usize, const N: usize>(
    clauses: &[C],
    floor: i32,
    made: u64,
    watch: &mut Watch<M>,
    room: &mut Room<N>,
    times: &mut [i32],
) -> u64
    requires in_times { InTimes (map C.clause clauses.now) times.old }
    requires few { length times.old ≤ N }
    requires seen { watch.old.seen ≤ M }
    ensures { PassesMade (map C.clause clauses.now) floor times.old times.new result }
{
    let seen = watch.seen;
    let to_the_minute = period(&watch.fingerprints[..seen], 65535);
    let taken = accelerate_guessed(clauses, floor, to_the_minute, room, times);
    if 0 < taken {
        watch.go_on(taken, to_the_minute, made, clauses.len());
        return taken;
    }
    let in_steps = other(to_the_minute, period(&watch.fingerprints[..seen], 255));
    let taken = accelerate_guessed(clauses, floor, in_steps, room, times);
    watch.go_on(taken, in_steps, made, clauses.len());
    taken
}

// After a pass, whose steps are `pass.steps`: notes its fingerprint, and now and then looks back. Answers the steps of the passes taken at
// once.
#[tactic(auto, using(crate::proofs::Repetitions::made_none))]
pub fn watch<C: AsClause, const M: usize, const N: usize>(
    clauses: &[C],
    floor: i32,
    pass: Pass,
    watch: &mut Watch<M>,
    room: &mut Room<N>,
    times: &mut [i32],
) -> u64
    requires in_times { InTimes (map C.clause clauses.now) times.old }
    requires few { length times.old ≤ N }
    ensures { PassesMade (map C.clause clauses.now) floor times.old times.new result }
{
    if 0 < watch.rest {
        watch.seen = 0;
        watch.rest -= 1;
        return 0;
    }
    let seen = watch.seen;
    if watch.fingerprints.len() <= seen {
        watch.seen = 0;
        watch.look = 16;
        return 0;
    }
    watch.fingerprints[seen] = fingerprint(pass);
    watch.seen = seen + 1;
    if watch.seen < watch.look {
        return 0;
    }
    look_back(clauses, floor, pass.steps, watch, room, times)
}
