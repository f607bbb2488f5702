// Runs over clauses of 1 to 8 arms, from start times other than zero, compared with straight passes: on every small book, and on books by
// chance that are deep enough for the run to take passes at once.

#![tactic(auto)]

mod book;
mod chance;
mod kinds;
mod outcome;
mod runnable;

use book::{Book, Line};
use chance::Chance;
use kinds::{rings, scattered, small_lines};
use outcome::{Outcome, by_run, by_straight_passes};
use std::io;

// What the books came to.
#[derive(Clone, Copy)]
struct Counts {
    books: u64,
    plans: u64,
    falls: u64,
    long: u64,
    differing: u64,
}

impl Counts {
    // Counts a book: it differs where the run and the straight passes do not end alike, or one of the two does not end.
    fn count(&mut self, book: &Book) {
        self.books = self.books.saturating_add(1);
        let found = by_run(book);
        match by_straight_passes(book) {
            Some(outcome) if found == Some(outcome) => self.add(outcome),
            _ => self.differing = self.differing.saturating_add(1),
        }
    }

    // Counts what both found. It is long where it took more than 10,000 steps.
    fn add(&mut self, outcome: Outcome) {
        if outcome.fallen.is_some() {
            self.falls = self.falls.saturating_add(1);
        } else {
            self.plans = self.plans.saturating_add(1);
        }
        if 10000 < outcome.steps {
            self.long = self.long.saturating_add(1);
        }
    }

    // Counts the book of some clauses over two jobs from each start at -1 or 0, above two floors.
    fn count_small(&mut self, lines: &[Line]) {
        for floor in [-5, -2] {
            for x in -1..=0 {
                for y in -1..=0 {
                    self.count(&Book::small(lines, floor, x, y));
                }
            }
        }
    }

    // Counts every small book of one or two clauses, and of three clauses with one or two arms.
    fn count_all_small(&mut self) {
        let lines = small_lines();
        for first in &lines {
            self.count_small(&[*first]);
            for second in &lines {
                self.count_small(&[*first, *second]);
                if first.count < 3 && second.count < 3 {
                    for third in lines.iter().filter(|line| line.count < 3) {
                        self.count_small(&[*first, *second, *third]);
                    }
                }
            }
        }
    }
}

fn main(rt: HostRuntime) -> io::Result<()> {
    let mut counts = Counts {
        books: 0,
        plans: 0,
        falls: 0,
        long: 0,
        differing: 0,
    };
    counts.count_all_small();
    let mut chance = Chance { state: 20160 };
    for _ in 0..20000 {
        counts.count(&scattered(&mut chance));
    }
    for _ in 0..200 {
        counts.count(&rings(&mut chance, 4, 15000));
        counts.count(&rings(&mut chance, 16, 1500));
    }
    let Counts {
        books,
        plans,
        falls,
        long,
        differing,
    } = counts;
    println!(rt; "BOOKS {books} PLANS {plans} FALLS {falls} LONG {long} DIFFERING {differing}")
}
