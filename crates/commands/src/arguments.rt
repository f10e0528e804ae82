// A command's arguments: its numbers, and the words or bytes behind them.
ghost use Rattle.std.specs.Prelude.{vec_items};
ghost use Rattle.std.specs.Option.{option_map};
ghost use Rattle.commands.specs.Arguments.{segment_in, numbers_only, numbers_words, Reads};
ghost use Rattle.commands.specs.Coming.{coming};
ghost use Rattle.commands.specs.Parsing.{words_in, bytes_in, nothing_in};

use crate::fields::Fields;
use crate::numbers::Numbers;
use crate::numerals::{bytes, number};
use crate::verbs::is_semicolon;
use crate::wrong::{BAD_ARGUMENTS, ParseFault};
use std::alloc::Global;

// The words before the first semicolon, and the fields past it; None where there is no semicolon.
pub(crate) fn read_segment<'a>(
    heap: Global,
    mut fields: Fields<'a>,
) -> Result<(Vec<u64>, Option<Fields<'a>>), ParseFault>
    ensures { Reads (λ p. (p.0.items, option_map coming p.1)) result (segment_in (coming fields.entry)) }
{
    let mut words = Vec::new(heap);
    while let Some(field) = fields.next() {
        if is_semicolon(field) {
            return Ok((words, Some(fields)));
        }
        words.push(number(field).ok_or(BAD_ARGUMENTS)?)?;
    }
    Ok((words, None))
}

// All fields as words.
pub(crate) fn read_words(heap: Global, fields: Fields<'_>) -> Result<Vec<u64>, ParseFault>
    ensures { Reads vec_items result (words_in (coming fields.entry)) }
{
    match read_segment(heap, fields)? {
        (words, None) => Ok(words),
        (_, Some(_)) => Err(BAD_ARGUMENTS),
    }
}

// That there is no field.
fn read_nothing(mut fields: Fields<'_>) -> Result<(), ParseFault>
    ensures { Reads (λ _. tt) result (nothing_in (coming fields.entry)) }
{
    match fields.next() {
        Some(_) => Err(BAD_ARGUMENTS),
        None => Ok(()),
    }
}

// The one field as bytes.
pub(crate) fn read_bytes(heap: Global, mut fields: Fields<'_>) -> Result<Vec<u8>, ParseFault>
    ensures { Reads vec_items result (bytes_in (coming fields.entry)) }
{
    let field = fields.next().ok_or(BAD_ARGUMENTS)?;
    read_nothing(fields)?;
    bytes(heap, field)?.ok_or(BAD_ARGUMENTS)
}

// All fields as numbers.
pub(crate) fn read_numbers<N: Numbers>(mut fields: Fields<'_>) -> Result<N, ParseFault>
    ensures { Reads N.values result (numbers_only N.limits (coming fields.entry)) }
{
    let numbers = N::read(&mut fields)?;
    read_nothing(fields)?;
    Ok(numbers)
}

// Numbers, and all fields after them as words.
pub(crate) fn read_numbers_and_words<N: Numbers>(
    heap: Global,
    mut fields: Fields<'_>,
) -> Result<(N, Vec<u64>), ParseFault>
    ensures { Reads (λ p. (N.values p.0, p.1.items)) result (numbers_words N.limits (coming fields.entry)) }
{
    let numbers = N::read(&mut fields)?;
    let words = read_words(heap, fields)?;
    Ok((numbers, words))
}
