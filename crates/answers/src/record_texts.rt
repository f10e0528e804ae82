// Corrections as the bytes of their records, and records as corrections.
ghost use Rattle.std.specs.Prelude.{◌≡◌, ◌<◌, ◌≤◌, length, IfOk, string_bytes};
ghost use Rattle.journal.specs.Asked.{asked};
ghost use Rattle.commands.specs.Commands.{owned};
ghost use Rattle.answers.specs.Texts.{hex_text};
ghost use Rattle.answers.specs.Views.{write_text, read_text, unwrite_text};

use crate::texts::push_each;
use commands::command::OwnedCorrection;
use journal::correction::Correction;
use journal::journal::MOST_WORDS;
use records::record::reading::read_record;
use records::writing::write_record;
use std::alloc::{AllocError, Global};

// The most bytes that a record takes: the map, place, struck count, number of words, and 1,024 words.
const MOST_BYTES: usize = 11 + 8 * MOST_WORDS;

// The bytes in hex.
fn hex_text(heap: Global, bytes: &[u8]) -> Result<String, AllocError>
    ensures { IfOk result (λ text. string_bytes text ≡ hex_text bytes.now) }
{
    hex::encode(heap, bytes)
}

// The bytes of a correction's record in hex, written to a buffer that has room for any, or its refusal.
fn written_text(heap: Global, asks: &Correction<'_>, room: &mut [u8]) -> Result<String, AllocError>
    requires { 8203 ≤ length room.old }
    ensures { IfOk result (λ text. string_bytes text ≡ write_text (asked asks.now)) }
{
    match write_record(asks, room) {
        Ok(size) => hex_text(heap, &room[0..size]),
        Err(refusal) => refusal.to_string(heap),
    }
}

// The bytes of a correction's record in hex, or its refusal.
pub fn record_text(heap: Global, correction: &OwnedCorrection) -> Result<String, AllocError>
    ensures { IfOk result (λ text. string_bytes text ≡ write_text (owned correction.now)) }
{
    let mut room = [0u8; MOST_BYTES];
    written_text(heap, &correction.lend(), &mut room)
}

// A correction, and how many bytes its record took.
fn read_text(heap: Global, asks: &Correction<'_>, used: usize) -> Result<String, AllocError>
    ensures { IfOk result (λ text. string_bytes text ≡ read_text (asked asks.now, used)) }
{
    let mut text = format!(in heap; "{} {}", asks.place, asks.struck)?;
    push_each(&mut text, " ", asks.words)?;
    write!(text, " used {used}")?;
    Ok(text)
}

// The correction of a record's bytes, or its refusal.
pub fn unrecord_text(heap: Global, bytes: &[u8]) -> Result<String, AllocError>
    ensures { IfOk result (λ text. string_bytes text ≡ unwrite_text bytes.now) }
{
    match read_record(bytes) {
        Ok((record, used)) => read_text(heap, &record.correction(), used),
        Err(refusal) => refusal.to_string(heap),
    }
}
