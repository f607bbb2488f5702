// The books, by number.
ghost use Rattle.std.specs.Prelude.{◌<◌};

use planner::Rule;

// A job of n, by a number.
pub fn job(n: usize, number: usize) -> u16
    requires { 0 < n }
{
    match number % n {
        0 => 0,
        1 => 1,
        _ => 2,
    }
}

fn offset(number: usize) -> i32 {
    match number % 3 {
        0 => -1,
        1 => 0,
        _ => 1,
    }
}

// A rule over n jobs is a number: its low three digits to base n are the rule's jobs, the next, to base 3, is its offset and 1.
fn rule(n: usize, number: usize) -> Rule
    requires { 0 < n }
{
    Rule {
        x: job(n, number),
        y: job(n, number / n),
        z: job(n, number / n / n),
        k: offset(number / n / n / n),
    }
}

// Two rules are a number: the digits above those of the first are the second's. A book of fewer rules lends fewer of them.
pub fn rules_of(n: usize, number: usize) -> [Rule; 2]
    requires { 0 < n }
{
    [rule(n, number), rule(n, number / n / n / n / 3)]
}

fn minute(number: usize) -> i32 {
    match number % 3 {
        0 => 0,
        1 => -1,
        _ => -2,
    }
}

// Latest times are a number: its digits to base 3 are the minutes before zero. A job that the book has not stands at 0, so that those of
// two jobs are the numbers below 9.
pub fn latest_of(number: usize) -> [i32; 3] {
    [minute(number), minute(number / 3), minute(number / 9)]
}

// Whether no job has a later time than the next one. With its jobs renumbered each book is one whose latest times are so.
pub fn are_ascending(times: [i32; 3]) -> bool {
    times[0] <= times[1] && times[1] <= times[2]
}
