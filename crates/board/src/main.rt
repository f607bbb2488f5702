// A board by hand: reads a book's file, whose name is the argument, and then commands on standard input, a line each.

#![tactic(auto)]

use session::session;
use std::fs::Files;
use std::io::Read;
use std::process::ExitCode;
use std::{env, fs, io};

// Reads a file's first 16,384 bytes, which are enough to reach any verdict.
fn read_file<R: Files + Alloc>(rt: &R, path: &str) -> io::Result<Vec<u8, R::A>> {
    let mut bytes = Vec::new(rt.alloc());
    fs::open(rt, path)?.take(16384).read_to_end(&mut bytes)?;
    Ok(bytes)
}

fn main(rt: HostRuntime) -> io::Result<ExitCode> {
    let mut words = env::args(&rt)?;
    words.next();
    let file = match words.next() {
        Some(path) => read_file(&rt, path.as_str()),
        None => Err(io::Error::from(io::ErrorKind::NotFound)),
    };
    match file {
        Ok(file) => {
            session(file.as_slice(), &mut rt.reader(), &mut io::writer(&rt))?;
            Ok(ExitCode::SUCCESS)
        }
        Err(_) => {
            println!(rt; "NO FILE")?;
            Ok(ExitCode::FAILURE)
        }
    }
}
