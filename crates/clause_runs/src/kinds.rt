// The kinds of books that are compared.
ghost use Rattle.std.specs.Prelude.{◌≤◌};

use crate::book::{Book, Line};
use crate::chance::Chance;
use maxatom::Arm;

// A clause over two jobs, each of whose arms is a number from 1 to 6: the job, and the offset from -1 to 1. The number 0 is no arm.
fn small_line(target: u16, numbers: [u8; 3]) -> Line {
    let mut line = Line::new(target);
    for number in numbers {
        if 0 < number {
            line.add(Arm {
                job: u16::from(number % 2),
                offset: i32::from((number - 1) / 2) - 1,
            });
        }
    }
    line
}

// Each clause over two jobs with one to three arms of offsets from -1 to 1, whose order does not count.
pub fn small_lines() -> [Line; 166] {
    let mut lines = [Line::new(0); 166];
    let mut places = lines.iter_mut();
    for target in 0..2 {
        for a in 1..7 {
            for b in 0..=a {
                for c in 0..=b {
                    if let Some(place) = places.next() {
                        *place = small_line(target, [a, b, c]);
                    }
                }
            }
        }
    }
    lines
}

// One of 1 to 12 jobs, by chance.
fn job(chance: &mut Chance, jobs: usize) -> u16 {
    chance.below(jobs.clamp(1, 12)) as u16
}

// A book of clauses by chance over 1 to 12 jobs. Its offsets are small or large, and more of them below zero than above.
pub fn scattered(chance: &mut Chance) -> Book {
    let jobs = 1 + chance.below(12);
    let largest: i32 = match chance.below(4) {
        0 => 1,
        1 => 7,
        2 => 300,
        _ => 20160,
    };
    let highest = match chance.below(3) {
        0 => -1,
        1 => largest / 8,
        _ => largest,
    };
    let floor = largest.saturating_mul(chance.between(-60, -1));
    let mut book = Book::new(jobs, floor);
    for time in &mut book.start {
        *time = chance.between(floor / 4, 0);
    }
    for _ in 0..1 + chance.below(40) {
        let mut line = Line::new(job(chance, jobs));
        for _ in 0..1 + chance.below(8) {
            line.add(Arm {
                job: job(chance, jobs),
                offset: chance.between(-largest, highest),
            });
        }
        book.add(line);
    }
    book
}

// Adds a ring of `size` jobs from the job `first` on: a clause for each of them, whose offsets sum to `sum`. Each clause stands before the one
// whose target it reads, so that a fall takes as many passes as there are jobs to go round.
fn add_ring(chance: &mut Chance, book: &mut Book, first: usize, size: usize, sum: i32)
    requires { (first ≤ 32) × (1 ≤ size) × (size ≤ 16) }
{
    let mut left = sum;
    for i in (0..size).rev() {
        let offset = if i == 0 { left } else { chance.between(-3, 3) };
        left = left.saturating_sub(offset);
        let mut line = Line::new((first + (i + 1) % size) as u16);
        line.add(Arm {
            job: (first + i) as u16,
            offset,
        });
        book.add(line);
    }
}

// A job of rings of at most `width` jobs.
fn ring_job(chance: &mut Chance, width: usize) -> u16
    requires { (1 ≤ width) × (width ≤ 16) }
{
    (chance.below(3) * 16 + chance.below(width)) as u16
}

// Adds up to seven more arms to each clause, which are far below until the clause's target has fallen far.
fn add_arms(chance: &mut Chance, book: &mut Book, width: usize, far: i32)
    requires { (1 ≤ width) × (width ≤ 16) }
{
    for line in &mut book.lines {
        for _ in 0..chance.below(8) {
            line.add(Arm {
                job: ring_job(chance, width),
                offset: chance.between(far / 8, far).wrapping_neg(),
            });
        }
    }
}

// Adds up to six more clauses of one to three arms, which are satisfied until the jobs of the arms have fallen far.
fn add_clauses(chance: &mut Chance, book: &mut Book, width: usize, far: i32)
    requires { (1 ≤ width) × (width ≤ 16) }
{
    for _ in 0..chance.below(7) {
        let mut line = Line::new(ring_job(chance, width));
        for _ in 0..1 + chance.below(3) {
            line.add(Arm {
                job: ring_job(chance, width),
                offset: chance.between(far / 8, far),
            });
        }
        book.add(line);
    }
}

// A book of one to three rings, each of at most `width` jobs and at least half as many, with more arms and clauses or without. The clauses
// stand as they were added, or in any order. The floor is at most `depth` turns of the steepest ring away.
pub fn rings(chance: &mut Chance, width: usize, depth: i32) -> Book
    requires { (2 ≤ width) × (width ≤ 16) }
{
    let mut book = Book::new(48, 0);
    let mut steepest = -1;
    for ring in 0..1 + chance.below(3) {
        let sum = chance.between(-4, -1);
        steepest = steepest.min(sum);
        let size = width - chance.below(width / 2 + 1);
        add_ring(chance, &mut book, 16 * ring, size, sum);
    }
    let far = depth.min(20160);
    if chance.one_in(2) {
        add_arms(chance, &mut book, width, far);
    }
    if chance.one_in(2) {
        add_clauses(chance, &mut book, width, far);
    }
    book.floor = steepest.saturating_mul(chance.between(depth / 4, depth));
    for time in &mut book.start {
        *time = chance.between(-60, 0);
    }
    if chance.one_in(2) {
        for i in 1..book.count.min(64) {
            book.lines.swap(i, chance.below(i + 1));
        }
    }
    book
}
