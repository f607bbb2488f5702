// Reads a stored book's file on standard input, and prints the converted file. Of a refused file it prints nothing there, and the line of
// the refusal on standard error, and ends with status 1.

#![tactic(auto)]

ghost use Rattle.std.specs.Prelude.{◌≡◌, IfOk, IfSome, OnOk};
ghost use Rattle.std.specs.Io.KnownBytes.{Appends};
ghost use Rattle.convert.specs.Printed.{printed};

use converter::convert;
use input::read_full;
use report::refused_line;
use std::io;
use std::io::{Read, Write};
use std::process::ExitCode;

// Prints a file's converted file, or its refusal, and answers whether it was converted.
#[tactic(auto, using(crate::proofs::Printing::room, report::proofs::Reports::take_length))]
fn print_converted<W: Write, E: Write>(
    file: &[u8],
    output: &mut W,
    errors: &mut E,
) -> io::Result<bool>
    ensures output { OnOk result (Appends (W.contents output.old) (W.contents output.new) (printed file.now).output) }
    ensures errors { OnOk result (Appends (E.contents errors.old) (E.contents errors.new) (printed file.now).errors) }
    ensures done { IfOk result (λ done. done ≡ (printed file.now).done) }
{
    // 16,384 bytes hold any converted file.
    let mut bytes = [0; 16384];
    match convert(file, &mut bytes) {
        Ok(len) => {
            output.write_all(&bytes[..len])?;
            Ok(true)
        }
        Err(refusal) => {
            let mut line = [0; 80];
            let end = refused_line(refusal, &mut line);
            errors.write_all(&line[..end])?;
            Ok(false)
        }
    }
}

// Converts the file that an input gives, all of it, and prints what becomes of it.
fn convert_input<R: Read, W: Write, E: Write>(
    input: &mut R,
    output: &mut W,
    errors: &mut E,
) -> io::Result<bool>
    ensures output { OnOk result (IfSome (R.remaining input.old) (λ file. Appends (W.contents output.old) (W.contents output.new) (printed file).output)) }
    ensures errors { OnOk result (IfSome (R.remaining input.old) (λ file. Appends (E.contents errors.old) (E.contents errors.new) (printed file).errors)) }
    ensures done { IfOk result (λ done. IfSome (R.remaining input.old) (λ file. done ≡ (printed file).done)) }
{
    // The first 16,384 bytes are enough to tell what is printed of any file.
    let mut file = [0; 16384];
    let got = read_full(input, &mut file)?;
    print_converted(&file[..got], output, errors)
}

fn main(rt: HostRuntime) -> io::Result<ExitCode> {
    if convert_input(&mut rt.reader(), &mut io::writer(&rt), &mut rt.stderr())? {
        Ok(ExitCode::SUCCESS)
    } else {
        Ok(ExitCode::FAILURE)
    }
}
