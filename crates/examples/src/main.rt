// The examples, at run time: the report of each book; the hand steps of example L; and the records of B and of P by number.

#![tactic(auto)]

use planner::{Refusal, Rule, Slip, Tally, first_violated, record, step};
use report::report;
use std::io;
use std::io::Write;

// The text of a book's file, under its name.
fn show(rt: &impl Print, name: &str, file: &[u8]) -> io::Result<()> {
    println!(rt; "{name}")?;
    let mut text = [0; 65536];
    let n = report(file, &mut text);
    io::writer(rt).write_all(&text[..n])
}

// The record of a rule: its number, its length and its bytes. It is printed here and by no `Display`, as it is in this one place.
fn show_record(rt: &impl Print, file: &[u8], number: usize) -> io::Result<()> {
    let part = record(file, number);
    let length = part.len();
    print!(rt; "RECORD {number} {length}")?;
    for byte in part {
        print!(rt; " {byte}")?;
    }
    println!(rt)
}

// A hand step: its slip, with the board and the tally after it.
fn hand_step(
    rt: &impl Print,
    rules: &[Rule],
    latest: &[i32],
    times: &mut [i32],
    tally: &mut Tally,
    number: usize,
) -> io::Result<()> {
    match step(times.len(), rules, latest, times, tally, number) {
        Ok(Slip { job, before, after }) => println!(rt; "SLIP {job} {before} {after}")?,
        Err(_) => println!(rt; "REFUSED")?,
    }
    print!(rt; "BOARD")?;
    for time in &*times {
        print!(rt; " {time}")?;
    }
    println!(rt; "\nTALLY {} {}", tally.steps, tally.minutes)
}

// Printed here and by no `Display`, since it is printed in this one place.
fn show_violated(rt: &impl Print, found: Result<Option<usize>, Refusal>) -> io::Result<()> {
    match found {
        Ok(None) => println!(rt; "KEPT"),
        Ok(Some(i)) => println!(rt; "BROKEN {i}"),
        Err(_) => println!(rt; "REFUSED"),
    }
}

// Example L: from a fresh board a hand step on rule 1, then on rule 0, which stays violated.
fn hand_steps(rt: &impl Print) -> io::Result<()> {
    let rules = [
        Rule {
            x: 0,
            y: 1,
            z: 0,
            k: -1,
        },
        Rule {
            x: 0,
            y: 0,
            z: 1,
            k: -3,
        },
    ];
    let latest = [0, 0];
    let mut times = latest;
    let mut tally = Tally {
        steps: 0,
        minutes: 0,
    };
    hand_step(rt, &rules, &latest, &mut times, &mut tally, 1)?;
    hand_step(rt, &rules, &latest, &mut times, &mut tally, 0)?;
    show_violated(rt, first_violated(2, &rules, &latest, &times))
}

fn main(rt: HostRuntime) -> io::Result<()> {
    for (name, file) in example_books::NAMED {
        // Example L is a hand step, below.
        if name != "L" {
            show(&rt, name, file)?;
        }
    }
    println!(rt; "L")?;
    hand_steps(&rt)?;
    println!(rt; "B")?;
    for number in 0..5 {
        show_record(&rt, example_books::B, number)?;
    }
    println!(rt; "P")?;
    for number in 0..2 {
        show_record(&rt, example_books::P, number)?;
    }
    Ok(())
}
