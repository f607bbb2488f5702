// What one rule and one latest time add to the checks of a table, the checks of a whole list of latest times, and the floor.

#![tactic(auto)]

ghost use Rattle.std.specs.Prelude.{◌≡◌, ◌<◌, ◌^◌, position, pos, ◌-ℤ◌};
ghost use Rattle.std.specs.List.{list_any};
ghost use Rattle.maxatom.specs.Book.{smallest};
ghost use Rattle.maxatom.specs.Accepted.{InTime};
ghost use Rattle.derivation.specs.Refusals.{latest_outside, latest_checks, verdict};
ghost use Rattle.derivation.specs.Replies.{outcome_reply};
ghost use Rattle.table.specs.Faults.{bounds_fault, rule_fault, time_fault};

use derivation::{Fault, Refusal};
use maxatom::{Class, Rule};

// The checks of the numbers of one rule over `jobs` jobs: its job numbers, then its offset.
#[tactic(auto, unfolding(crate::specs::Faults::bounds_then, derivation::specs::Refusals::job_outside, derivation::specs::Refusals::beyond), using(maxatom::proofs::Signed::told))]
pub fn check_bounds(jobs: usize, r: Rule) -> Result<(), Fault>
    ensures { result ≡ bounds_fault jobs r }
{
    if jobs <= usize::from(r.x) || jobs <= usize::from(r.y) || jobs <= usize::from(r.z) {
        return Err(Fault::JobNumber);
    }
    if r.k < -20160 || 20160 < r.k {
        return Err(Fault::Offset);
    }
    Ok(())
}

// The checks of one rule of a table over `jobs` jobs: its numbers, then its class.
#[tactic(auto, unfolding(crate::specs::Faults::bounds_then, maxatom::specs::Class::class_of, maxatom::specs::Class::contradiction, maxatom::specs::Class::tautology))]
pub fn check_rule(jobs: usize, r: Rule) -> Result<(), Fault>
    ensures { result ≡ rule_fault jobs r }
{
    check_bounds(jobs, r)?;
    match r.class() {
        Class::Contradiction => Err(Fault::ImpossibleRule),
        _ => Ok(()),
    }
}

// The check of one latest time.
#[tactic(auto, unfolding(crate::specs::Faults::time_fault, derivation::specs::Refusals::latest_outside))]
pub fn check_time(minute: i32) -> Result<(), Fault>
    ensures { result ≡ time_fault minute }
{
    if minute < -20160 || 0 < minute {
        return Err(Fault::LatestTime);
    }
    Ok(())
}

// Whether some latest time is outside its bounds. It looks at every one, and never ends early, so that several are tested at once.
#[tactic(auto, unfolding(crate::specs::Faults::time_fault))]
fn any_outside(latest: &[i32]) -> bool
    ensures { result ≡ list_any latest_outside latest.now }
{
    let mut outside = false;
    for t in latest {
        outside |= check_time(*t).is_err();
    }
    outside
}

// The first job whose latest time is outside its bounds.
#[tactic(auto, unfolding(crate::specs::Faults::time_fault), using(crate::proofs::Latest::none_outside))]
fn find_outside(latest: &[i32]) -> Option<usize>
    ensures { result ≡ position latest_outside latest.now }
{
    if !any_outside(latest) {
        return None;
    }
    latest.iter().position(|t| check_time(*t).is_err())
}

// The checks of a list of latest times for `jobs` jobs: its length, then each time in turn.
pub fn check_latest(jobs: usize, latest: &[i32]) -> Result<(), Refusal>
    ensures { outcome_reply result ≡ verdict (latest_checks jobs latest.now) }
{
    if latest.len() != jobs {
        return Err(Fault::Length.into());
    }
    match find_outside(latest) {
        Some(place) => Err(Refusal {
            fault: Fault::LatestTime,
            place,
        }),
        None => Ok(()),
    }
}

// The smallest of the latest times, none of which is above zero.
pub fn smallest(latest: &[i32]) -> i32
    ensures { result ≡ smallest latest.now }
{
    let mut least = 0;
    for t in latest {
        least = least.min(*t);
    }
    least
}

// The floor of a book with this smallest latest time and this K; with 2K in its place, the lowest legal time.
pub fn floor(smallest: i32, k: u32) -> i32
    requires bounded { InTime smallest }
    requires small { k < 2 ^ 30 }
    ensures { result ≡ smallest -ℤ pos k }
{
    smallest - k as i32
}
