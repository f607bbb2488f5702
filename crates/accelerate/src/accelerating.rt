// Repetitions of the same passes, taken at once where the lockstep test allows it.
ghost use Rattle.std.specs.Prelude.{◌≡◌, Bool, true, ℕ, ◌≤◌, ◌^◌, length, map, ℤ, MatchOption};
ghost use Rattle.clauses.specs.Passes.{InTimes};
ghost use Rattle.accelerate.specs.Acceleration.{Spread, Dropped, PassesMade, Accelerated};

use crate::lockstep::lockstep_passes;
use crate::plain::plain_passes;
use crate::room::Room;
use clauses::{AsClause, earlier, fall, is_earlier, product};
use slices::copy;

// Sets the near times to the times, and the far times t drops below them. Answers whether each far time is at or above the floor.
fn spread(
    floor: i32,
    t: u64,
    drops: &[u32],
    times: &[i32],
    near: &mut [i32],
    far: &mut [i32],
) -> bool
    requires t_bound { t ≤ 2 ^ 29 }
    requires sizes { (length drops.now ≡ length times.now) × (length near.old ≡ length times.now) × (length far.old ≡ length times.now) }
    ensures { result ≡ true → Spread t drops.now times.now near.new far.new }
{
    copy(times, near);
    for (i, drop) in drops.iter().enumerate() {
        let low = earlier(times[i], product(t, *drop));
        if low < i64::from(floor) {
            return false;
        }
        far[i] = low as i32;
    }
    true
}

// The near times lie a drop below the times, and the far times t + 1 drops.
fn dropped(t: u64, drops: &[u32], times: &[i32], near: &[i32], far: &[i32]) -> bool
    requires t_bound { t ≤ 2 ^ 29 }
    requires sizes { (length drops.now ≡ length times.now) × (length near.now ≡ length times.now) × (length far.now ≡ length times.now) }
    ensures { result ≡ true → Dropped t drops.now times.now near.now far.now }
{
    for (i, drop) in drops.iter().enumerate() {
        if !is_earlier(times[i], near[i], u64::from(*drop))
            || !is_earlier(times[i], far[i], product(t + 1, *drop))
        {
            return false;
        }
    }
    true
}

// Makes the passes t + 1 times over, where the lockstep test allows it, and answers their steps. Else the times stay as they are.
pub fn accelerate<C: AsClause, const N: usize>(
    clauses: &[C],
    floor: i32,
    passes: usize,
    t: u64,
    drops: &[u32],
    room: &mut Room<N>,
    times: &mut [i32],
) -> Option<u64>
    requires in_times { InTimes (map C.clause clauses.now) times.old }
    requires few { length times.old ≤ N }
    requires drops_len { length drops.now ≡ length times.old }
    ensures { MatchOption result (times.new ≡ times.old) (λ s. Accelerated (map C.clause clauses.now) floor passes t drops.now times.old times.new s) }
{
    if passes < 1 || t < 1 || 536870912 < t {
        return None;
    }
    // Both halves of the room are cut to the jobs here, once, so that the near and the far times are plain slices below.
    let n = times.len();
    let Room { near, far } = room;
    let near = &mut near[..];
    let far = &mut far[..];
    let near = &mut near[..n];
    let far = &mut far[..n];
    if !spread(floor, t, drops, times, near, far) {
        return None;
    }
    let steps = lockstep_passes(clauses, floor, passes, near, far)?;
    if !dropped(t, drops, times, near, far) {
        return None;
    }
    copy(far, times);
    Some((t + 1) * steps)
}

// Fills in the drops, and answers the number of further ones that fit above the floor.
fn guess(floor: i32, times: &[i32], near: &[i32], drops: &mut [u32]) -> u64
    requires sizes { (length near.now ≡ length times.now) × (length drops.old ≡ length times.now) }
{
    let mut t: u64 = 536870912;
    for (i, time) in times.iter().enumerate() {
        let drop = fall(*time, near[i]);
        drops[i] = drop;
        if 0 < drop {
            t = t.min(u64::from(fall(near[i], floor) / drop));
        }
    }
    t
}

// Makes the passes on the near times, fills in the drops, and answers the number of further ones that fit above the floor. None where the
// passes give up.
fn guess_by_passes<C: AsClause, const N: usize>(
    clauses: &[C],
    floor: i32,
    passes: usize,
    times: &[i32],
    drops: &mut [u32],
    room: &mut Room<N>,
) -> Option<u64>
    requires in_times { InTimes (map C.clause clauses.now) times.now }
    requires few { length times.now ≤ N }
    requires drops_len { length drops.old ≡ length times.now }
{
    let n = times.len();
    let near = &mut room.near[..];
    let near = &mut near[..n];
    copy(times, near);
    plain_passes(clauses, floor, passes as u64, near)?;
    Some(guess(floor, times, near, drops))
}

// Two repetitions tell whether there are more; of 16 passes or more, whose fingerprints tell enough, all that are left are tried at once.
fn first_try(passes: usize, left: u64) -> u64 {
    if passes < 16 { left.min(1) } else { left }
}

// The repetitions beyond one that are left after a try of t + 1.
fn still_left(left: u64, t: u64, made: bool) -> u64 {
    if made {
        left.saturating_sub(t).saturating_sub(1)
    } else {
        left
    }
}

// What to try after the first: all that are left, or half as many.
fn next_try(first: u64, left: u64, made: bool) -> u64 {
    if made { left } else { first / 2 }
}

// Makes repetitions of the passes, one and at most `most` beyond it, as the lockstep test allows, and answers their steps.
fn repeat<C: AsClause, const N: usize>(
    clauses: &[C],
    floor: i32,
    passes: usize,
    most: u64,
    drops: &[u32],
    room: &mut Room<N>,
    times: &mut [i32],
) -> u64
    requires in_times { InTimes (map C.clause clauses.now) times.old }
    requires few { length times.old ≤ N }
    requires drops_len { length drops.now ≡ length times.old }
    ensures { PassesMade (map C.clause clauses.now) floor times.old times.new result }
{
    let first = first_try(passes, most);
    let made = accelerate(clauses, floor, passes, first, drops, room, times);
    let mut left = still_left(most, first, made.is_some());
    let mut t = next_try(first, left, made.is_some());
    let mut steps = made.unwrap_or(0);
    // The tries halve, so no range goes through them.
    while 0 < t && steps < 4611686018427387904 {
        let made = accelerate(clauses, floor, passes, t, drops, room, times);
        left = still_left(left, t, made.is_some());
        t = left.min(t / 2);
        steps += made.unwrap_or(0);
    }
    steps
}

// Makes repetitions of the passes, as far as the lockstep test allows, and answers their steps.
#[tactic(auto, using(crate::proofs::Repetitions::made_none))]
pub fn accelerate_guessed<C: AsClause, const N: usize>(
    clauses: &[C],
    floor: i32,
    passes: Option<usize>,
    room: &mut Room<N>,
    times: &mut [i32],
) -> u64
    requires in_times { InTimes (map C.clause clauses.now) times.old }
    requires few { length times.old ≤ N }
    ensures { PassesMade (map C.clause clauses.now) floor times.old times.new result }
{
    let Some(passes) = passes else {
        return 0;
    };
    let n = times.len();
    // There is no heap: one drop for each job that the room holds.
    let mut drops = [0; N];
    let drops = &mut drops[..n];
    match guess_by_passes(clauses, floor, passes, times, drops, room) {
        None => 0,
        Some(most) => repeat(clauses, floor, passes, most, drops, room, times),
    }
}
