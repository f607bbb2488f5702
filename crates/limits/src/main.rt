// Files and plans at and past each limit of the file format, one line a case: what the reader, the converter and the plan writer answer.

#![tactic(auto)]

ghost use Rattle.std.specs.Prelude.{◌≤◌, length};

use converter::convert;
use planner::{Refusal, Rule, read_book, write_plan};
use std::io;

// BK and the job count.
fn book(jobs: u16) -> [u8; 4] {
    let [a, b] = jobs.to_le_bytes();
    [b'B', b'K', a, b]
}

// RU, the jobs 0, 0 and z, and the offset by its 32 bits.
fn rule(z: u16, k: u32) -> [u8; 12] {
    let [a, b] = z.to_le_bytes();
    let [c, d, e, f] = k.to_le_bytes();
    [b'R', b'U', 0, 0, 0, 0, a, b, c, d, e, f]
}

// CE, the job, and the minute by its 32 bits.
fn latest(job: u16, minute: u32) -> [u8; 8] {
    let [a, b] = job.to_le_bytes();
    let [c, d, e, f] = minute.to_le_bytes();
    [b'C', b'E', a, b, c, d, e, f]
}

// HR, the jobs 0, 0 and z, and the hours by their 16 bits.
fn hours(z: u16, bits: u16) -> [u8; 10] {
    let [a, b] = z.to_le_bytes();
    let [c, d] = bits.to_le_bytes();
    [b'H', b'R', 0, 0, 0, 0, a, b, c, d]
}

// A stored file of one rule, in hours.
fn hours_file(jobs: u16, z: u16, bits: u16) -> [u8; 14] {
    let mut file = [0; 14];
    file[..4].copy_from_slice(&book(jobs));
    file[4..].copy_from_slice(&hours(z, bits));
    file
}

// Printed here and by no `Display`, since the other answers are printed where they are found.
fn refused(rt: &impl Print, refusal: Refusal) -> io::Result<()> {
    let number = u8::from(refusal.fault);
    let place = refusal.place;
    print!(rt; "REFUSED {number} {place}")
}

// What the reader answers.
fn show(rt: &impl Print, file: &[u8]) -> io::Result<()> {
    let mut rules = [Rule {
        x: 0,
        y: 0,
        z: 0,
        k: 0,
    }; 1024];
    let mut times = [0; 256];
    match read_book(file, &mut rules, &mut times) {
        Ok(counts) => print!(rt; "BOOK {} {}", counts.jobs, counts.rules)?,
        Err(refusal) => refused(rt, refusal)?,
    }
    println!(rt)
}

// What the converter answers.
fn show_length(rt: &impl Print, file: &[u8], out: &mut [u8]) -> io::Result<()> {
    match convert(file, out) {
        Ok(length) => print!(rt; "CONVERTED {length}"),
        Err(refusal) => refused(rt, refusal),
    }
}

// What the converter answers, lent an output of `room` bytes, each of them 7; and that output afterwards.
fn show_converted(rt: &impl Print, file: &[u8], room: usize) -> io::Result<()>
    requires { room ≤ 49 }
{
    let mut out = [7; 49];
    print!(rt; " into {room} bytes: ")?;
    show_length(rt, file, &mut out[..room])?;
    print!(rt; " OUT")?;
    for byte in &out[..room] {
        print!(rt; " {byte}")?;
    }
    println!(rt)
}

fn with_jobs(rt: &impl Print, jobs: u16) -> io::Result<()> {
    print!(rt; "jobs {jobs}: ")?;
    show(rt, &book(jobs))
}

// Writes a book of 256 jobs and `times` latest times of −20,160, from job 0 on and past the last job from job 0 again.
fn write_latest(times: usize, file: &mut [u8; 14360])
    requires { times ≤ 257 }
{
    file[..4].copy_from_slice(&book(256));
    for i in 0..times {
        let at = 4 + i * 8;
        file[at..at + 8].copy_from_slice(&latest((i % 256) as u16, 4294947136));
    }
}

// Writes `rules` idle rules from a byte on.
fn write_rules(begin: usize, rules: usize, file: &mut [u8; 14360])
    requires { (begin ≤ 2060) × (rules ≤ 1025) }
{
    for i in 0..rules {
        let at = begin + i * 12;
        file[at..at + 12].copy_from_slice(&rule(0, 0));
    }
}

// What the reader answers for a book of 256 jobs with `times` latest times and `rules` rules.
fn with_records(rt: &impl Print, times: usize, rules: usize) -> io::Result<()>
    requires { (times ≤ 257) × (rules ≤ 1025) }
{
    print!(rt; "latest times {times}, rules {rules}: ")?;
    // An array, and its first places: no file of a case is longer, and nothing can run out of memory.
    let mut file = [0; 14360];
    write_latest(times, &mut file);
    let begin = 4 + times * 8;
    write_rules(begin, rules, &mut file);
    show(rt, &file[..begin + rules * 12])
}

// What the reader answers for an impossible rule behind `rules` idle ones.
fn impossible_behind(rt: &impl Print, rules: usize) -> io::Result<()>
    requires { rules ≤ 1024 }
{
    print!(rt; "impossible, behind {rules} rules: ")?;
    let mut file = [0; 14360];
    file[..4].copy_from_slice(&book(1));
    write_rules(4, rules, &mut file);
    let at = 4 + rules * 12;
    file[at..at + 12].copy_from_slice(&rule(0, 4294967295));
    show(rt, &file[..at + 12])
}

// What the converter answers for a book of 256 jobs with 256 latest times and `rules` rules in hours, lent an output of `room` bytes.
fn convert_records(rt: &impl Print, rules: usize, room: usize) -> io::Result<()>
    requires { (rules ≤ 1025) × (room ≤ 14352) }
{
    print!(rt; "convert latest times 256, rules {rules} into {room} bytes: ")?;
    let mut file = [0; 14360];
    write_latest(256, &mut file);
    for i in 0..rules {
        let at = 2052 + i * 10;
        file[at..at + 10].copy_from_slice(&hours(0, 0));
    }
    let mut out = [0; 14352];
    show_length(rt, &file[..2052 + rules * 10], &mut out[..room])?;
    println!(rt)
}

// A book of one record behind the head.
fn one_record(rt: &impl Print, jobs: u16, bytes: &[u8]) -> io::Result<()>
    requires { length bytes.now ≤ 12 }
{
    let mut file = [0; 16];
    let end = 4 + bytes.len();
    file[..4].copy_from_slice(&book(jobs));
    file[4..end].copy_from_slice(bytes);
    show(rt, &file[..end])
}

// An offset by its 32 bits.
fn with_offset(rt: &impl Print, bits: u32) -> io::Result<()> {
    print!(rt; "offset bits {bits}: ")?;
    one_record(rt, 2, &rule(1, bits))
}

fn with_job(rt: &impl Print, jobs: u16, z: u16) -> io::Result<()> {
    print!(rt; "job of {jobs}, {z}: ")?;
    one_record(rt, jobs, &rule(z, 0))
}

// A file of some bytes, under its name.
fn named(rt: &impl Print, name: &str, file: &[u8]) -> io::Result<()> {
    print!(rt; "{name}: ")?;
    show(rt, file)
}

// A file cut off at each length.
fn cut_off(rt: &impl Print, file: &[u8]) -> io::Result<()> {
    for length in 0..=file.len() {
        print!(rt; "cut off at {length}: ")?;
        show(rt, &file[..length])?;
    }
    Ok(())
}

// What the converter answers for hours by their 16 bits.
fn convert_hours(rt: &impl Print, bits: u16, room: usize) -> io::Result<()>
    requires { room ≤ 49 }
{
    print!(rt; "convert hours bits {bits}")?;
    show_converted(rt, &hours_file(1, 0, bits), room)
}

// What the reader answers for the converted file of a stored one.
fn read_converted(rt: &impl Print, name: &str, file: &[u8]) -> io::Result<()> {
    print!(rt; "converted, {name}: ")?;
    let mut out = [0; 48];
    match convert(file, &mut out) {
        Ok(length) => show(rt, &out[..length.min(48)]),
        Err(refusal) => refused(rt, refusal),
    }
}

fn convert_job(rt: &impl Print, jobs: u16, z: u16) -> io::Result<()> {
    print!(rt; "convert job of {jobs}, {z}")?;
    show_converted(rt, &hours_file(jobs, z, 0), 16)
}

// What the converter answers for a file cut off at each length.
fn convert_cut_off(rt: &impl Print, file: &[u8]) -> io::Result<()> {
    for length in 0..=file.len() {
        print!(rt; "convert cut off at {length}")?;
        show_converted(rt, &file[..length], 16)?;
    }
    Ok(())
}

// What the plan writer answers on n times, from a byte of 2,048 on.
fn with_times(rt: &impl Print, n: usize, at: usize) -> io::Result<()>
    requires { n ≤ 300 }
{
    print!(rt; "times {n} at {at}: ")?;
    let times = [0; 300];
    let mut out = [0; 2048];
    match write_plan(&times[..n], &mut out, at) {
        Ok(()) => print!(rt; "WRITTEN")?,
        Err(refusal) => refused(rt, refusal)?,
    }
    println!(rt)
}

fn main(rt: HostRuntime) -> io::Result<()> {
    for jobs in [0, 1, 256, 257] {
        with_jobs(&rt, jobs)?;
    }
    with_records(&rt, 0, 1024)?;
    with_records(&rt, 0, 1025)?;
    with_records(&rt, 256, 1024)?;
    with_records(&rt, 256, 1025)?;
    with_records(&rt, 257, 0)?;
    for bits in [20160, 20161, 4294947136, 4294947135] {
        with_offset(&rt, bits)?;
    }
    named(&rt, "a record in hours", &hours_file(1, 0, 0))?;
    named(&rt, "hours first", &hours(0, 0))?;
    with_job(&rt, 256, 255)?;
    with_job(&rt, 256, 256)?;
    for (name, file) in example_books::LATEST_LIMITS {
        print!(rt; "latest times, ")?;
        named(&rt, name, file)?;
    }
    for (name, file) in example_books::IMPOSSIBLE {
        print!(rt; "impossible, ")?;
        named(&rt, name, file)?;
    }
    impossible_behind(&rt, 1023)?;
    impossible_behind(&rt, 1024)?;
    cut_off(&rt, example_books::EARLIEST)?;
    named(&rt, "42 4B 01 00 52", b"\x42\x4B\x01\x00\x52")?;
    named(&rt, "no byte", b"")?;
    for bits in [336, 337, 65200, 65199] {
        convert_hours(&rt, bits, 16)?;
    }
    convert_hours(&rt, 336, 0)?;
    convert_hours(&rt, 336, 15)?;
    convert_hours(&rt, 336, 20)?;
    convert_hours(&rt, 337, 15)?;
    print!(rt; "convert hours first")?;
    show_converted(&rt, &hours(0, 0), 16)?;
    convert_job(&rt, 256, 255)?;
    convert_job(&rt, 256, 256)?;
    convert_records(&rt, 1024, 14340)?;
    convert_records(&rt, 1024, 14339)?;
    convert_records(&rt, 1025, 14352)?;
    for room in [47, 48, 49] {
        print!(rt; "convert hours and minutes")?;
        show_converted(&rt, example_books::IN_HOURS, room)?;
    }
    for (name, file) in example_books::LATEST_LIMITS {
        print!(rt; "convert latest times, {name}")?;
        show_converted(&rt, file, 28)?;
    }
    for (name, file) in example_books::IMPOSSIBLE {
        print!(rt; "convert impossible, {name}")?;
        show_converted(&rt, file, 28)?;
    }
    read_converted(&rt, "hours and minutes", example_books::IN_HOURS)?;
    read_converted(
        &rt,
        "hours of an impossible rule",
        example_books::IMPOSSIBLE_HOURS,
    )?;
    convert_cut_off(&rt, &hours_file(2, 1, 65535))?;
    with_times(&rt, 0, 0)?;
    with_times(&rt, 1, 0)?;
    with_times(&rt, 256, 0)?;
    with_times(&rt, 256, 1)?;
    with_times(&rt, 257, 0)?;
    with_times(&rt, 1, 2040)?;
    with_times(&rt, 1, 2041)?;
    with_times(&rt, 1, 2049)?;
    with_times(&rt, 1, 18446744073709551615)
}
