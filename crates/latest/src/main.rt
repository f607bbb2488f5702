// Reads a book's file on standard input, and prints the plan, or NONE, or REFUSED.

#![tactic(auto)]

use input::read_full;
use report::report;
use std::io;
use std::io::Write;

fn main(rt: HostRuntime) -> io::Result<()> {
    let mut file = [0; 16384];
    let got = read_full(&mut rt.reader(), &mut file)?;
    let mut text = [0; 65536];
    let n = report(&file[..got], &mut text);
    io::writer(&rt).write_all(&text[..n])
}
