// Reads commands from standard input, a line each, and prints an answer line for each.
#![tactic(auto)]

use session::session::Session;
use std::alloc::AllocError;
use std::io::{Read, Write};
use std::process::ExitCode;
use std::{env, fmt};

const HELP: &str = "usage: console < SCRIPT

Reads commands, one a line, and prints an answer line for each. There are four
journals J, 0 to 3, and a series beneath them: a bottom, and a check over it.
W is a word, P a place, S a count of places to strike; # starts a comment.

  register W ..        the bottom is these intervals, by their words
  nominal W N          the bottom is N places of one interval
  profile HEX          the bottom is a packed profile (tag 1)
  check TAG LIMIT      a check over the bottom; nocheck: none
  start J N            journal J is new, for N places
  enter J P W ..       enter words at a place
  strike J P S         strike places
  replace J P S W ..   both
  batch J HEX          the corrections in these bytes, all or none
  draft J keep P S W .. ; P S W .. ; ..
                       corrections in turn; drop in place of keep goes back
  tidy J               drop struck words, and number the others anew
  fold LOWER UPPER THIRD
                       one journal in the place of two
  pieces J, words J, length J, walk J
                       what the journal holds
  fits J               whether it was started for the series beneath
  origin J P           where a place comes from: b5, base place 5; e70, word 70
  read J TAG P         the cell there, the journal laid on the series
  pile J K P           origin and cell, K laid on J laid on the series
  flatten J TAG        all readings, as AMOUNT/STATUS
  record P S W ..      the bytes of a correction
  unrecord HEX         the correction of some bytes

A refused call answers refused and its number, and changes nothing:

    1  no such place              6  bytes end too early
    2  too long                   7  a map bit without meaning
    3  more than 1,024 words      8  a present field of zero
    4  more than 256 pieces       9  bytes left over
    5  the upper journal is not for the lower

A line that is no command answers what? and its number.
";

// What can go wrong outside of the script.
#[derive(Clone, Copy)]
enum Trouble {
    Input,
    Output,
    Memory,
}

impl From<AllocError> for Trouble {
    fn from(_: AllocError) -> Trouble {
        Trouble::Memory
    }
}

impl fmt::Display for Trouble {
    fn fmt<W: fmt::Write>(&self, f: &mut fmt::Formatter<W>) -> fmt::Result {
        f.write_str(match self {
            Trouble::Input => "standard input cannot be read",
            Trouble::Output => "standard output cannot be written",
            Trouble::Memory => "no memory for a line or its answer",
        })
    }
}

// Prints an answer, where there is one, as a line.
fn print_answer(rt: &HostRuntime, answer: Option<String>) -> Result<(), Trouble> {
    let Some(mut text) = answer else {
        return Ok(());
    };
    text.push_str("\n")?;
    let written = rt.stdout().write_all(text.as_bytes());
    written.map_err(|_| Trouble::Output)
}

// Takes some bytes of the script, and prints the answers of the lines that end in them.
fn take_bytes(rt: &HostRuntime, session: &mut Session, bytes: &[u8]) -> Result<(), Trouble> {
    for byte in bytes {
        let answer = session.take_byte(rt.alloc(), *byte)?;
        print_answer(rt, answer)?;
    }
    Ok(())
}

// Takes the next part of the script; false at its end.
fn take_part(rt: &HostRuntime, session: &mut Session) -> Result<bool, Trouble> {
    let mut part = [0u8; 4096];
    let Ok(count) = rt.stdin().read(&mut part) else {
        return Err(Trouble::Input);
    };
    take_bytes(rt, session, &part[0..count])?;
    Ok(count > 0)
}

// Runs the script, a part of it at a time.
fn run(rt: &HostRuntime) -> Result<(), Trouble> {
    let mut session = Session::new(rt.alloc());
    // A loop that waits on input needs an end; no script has so many parts.
    for _ in 0..u64::MAX {
        if !take_part(rt, &mut session)? {
            break;
        }
    }
    let answer = session.close(rt.alloc())?;
    print_answer(rt, answer)
}

// Says on standard error what went wrong, and ends with status 1.
fn complain<T: fmt::Display + Drop>(rt: &HostRuntime, trouble: T) -> anyhow::Result<ExitCode> {
    eprintln!(rt; "console: {trouble}")?;
    Ok(ExitCode::FAILURE)
}

fn main(rt: HostRuntime) -> anyhow::Result<ExitCode> {
    let mut args = env::args(&rt)?.skip(1);
    match args.next() {
        None => match run(&rt) {
            Ok(()) => Ok(ExitCode::SUCCESS),
            Err(trouble) => complain(&rt, trouble),
        },
        Some(word) => {
            if word.as_str() == "--help" || word.as_str() == "-h" {
                rt.print(HELP)?;
                return Ok(ExitCode::SUCCESS);
            }
            complain(&rt, "takes no arguments but --help; see console --help")
        }
    }
}
