// Reads a packed profile and a batch of corrections from standard input, and prints the corrected series.
#![tactic(auto)]

use listing::readout::{MOST_BYTES, read_out};
use listing::refused::ReadoutError;
use std::io::{Read, Write};
use std::process::ExitCode;
use std::{env, fmt, io};

const HELP: &str = "usage: readout < INPUT

Reads a packed profile and, right behind it, a batch of corrections: at most
65,536 bytes. Prints the corrected series: the header

    place origin amount status

and a line for each place. The origin is b and a base place, or e for an
entered reading. A place without a reading has, in place of amount and status,
the word fault with its cause, the tag of its layer and the place there:

    11  not delivered (tag 1: the profile)
    12  over 20,000 watt-hours (tag 2: the check)
    13  past the base (tag 3: the journal)

A refused input prints one line, as refused 6, or refused 8 record 0 where the
bad record is known, and ends with status 1:

    1  no such place              6  bytes end too early
    2  too long                   7  a map bit without meaning
    3  more than 1,024 words      8  a present field of zero
    4  more than 256 pieces       9  bytes left over
";

// Standard input, cut after the first byte that is too many.
fn input(rt: &HostRuntime) -> io::Result<Vec<u8>> {
    let mut bytes = Vec::new(rt.alloc());
    rt.stdin()
        .take(MOST_BYTES as u64 + 1)
        .read_to_end(&mut bytes)?;
    Ok(bytes)
}

// What went wrong outside of the input, on standard error.
fn complain<T: fmt::Display + Drop>(rt: &HostRuntime, trouble: T) -> anyhow::Result<ExitCode> {
    eprintln!(rt; "readout: {trouble}")?;
    Ok(ExitCode::FAILURE)
}

fn run(rt: &HostRuntime) -> anyhow::Result<ExitCode> {
    let Ok(bytes) = input(rt) else {
        return complain(rt, "standard input cannot be read");
    };
    match read_out(rt.alloc(), bytes.as_slice()) {
        Ok(text) => match rt.stdout().write_all(text.as_bytes()) {
            Ok(()) => Ok(ExitCode::SUCCESS),
            Err(_) => complain(rt, "standard output cannot be written"),
        },
        Err(ReadoutError::NoMemory) => complain(rt, ReadoutError::NoMemory),
        Err(refused) => {
            println!(rt; "{refused}")?;
            Ok(ExitCode::FAILURE)
        }
    }
}

fn main(rt: HostRuntime) -> anyhow::Result<ExitCode> {
    let mut args = env::args(&rt)?.skip(1);
    match args.next() {
        None => run(&rt),
        Some(word) => {
            if word.as_str() == "--help" || word.as_str() == "-h" {
                rt.print(HELP)?;
                return Ok(ExitCode::SUCCESS);
            }
            complain(&rt, "takes no arguments but --help; see readout --help")
        }
    }
}
