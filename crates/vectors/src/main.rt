// Reads inputs of readout, a line of hex digits each, and prints what readout prints for each, with an
// empty line after it.
#![tactic(auto)]

ghost use Rattle.std.specs.Prelude.{◌<◌, IfSome};

use anyhow::anyhow;
use listing::readout::read_out;
use listing::refused::ReadoutError;
use std::alloc::{AllocError, Global};
use std::io::{BufRead, BufReader, Write};

// The value of a hex digit in lower case.
fn digit(b: u8) -> Option<u8>
    ensures { IfSome result (λ d. d < 16) }
{
    match b {
        b'0'..=b'9' => Some(b - b'0'),
        b'a'..=b'f' => Some(b - b'a' + 10),
        _ => None,
    }
}

// The byte of two hex digits.
fn byte(high: u8, low: u8) -> Option<u8> {
    let high = digit(high)?;
    let low = digit(low)?;
    Some(high * 16 + low)
}

// The bytes of a line; what is no pair of digits is left out.
fn bytes_of(heap: Global, line: &[u8]) -> Result<Vec<u8>, AllocError> {
    let mut bytes = Vec::new(heap);
    for pair in line.chunks(2) {
        if let [high, low] = pair {
            if let Some(b) = byte(*high, *low) {
                bytes.push(b)?;
            }
        }
    }
    Ok(bytes)
}

// Prints what readout prints for an input.
fn print_one(rt: &HostRuntime, line: &[u8]) -> anyhow::Result<()> {
    let bytes = bytes_of(rt.alloc(), line)?;
    match read_out(rt.alloc(), bytes.as_slice()) {
        Ok(text) => rt.stdout().write_all(text.as_bytes())?,
        Err(ReadoutError::NoMemory) => return Err(anyhow!("no memory")),
        Err(refused) => println!(rt; "{refused}")?,
    }
    println!(rt; "")?;
    Ok(())
}

fn main(rt: HostRuntime) -> anyhow::Result<()> {
    for line in BufReader::new(rt.alloc(), rt.stdin())?.lines(rt.alloc()) {
        print_one(&rt, line?.as_bytes())?;
    }
    Ok(())
}
