// From a line to a command.
ghost use Rattle.commands.specs.Arguments.{Reads};
ghost use Rattle.commands.specs.Coming.{coming};
ghost use Rattle.commands.specs.Commands.{by_command};
ghost use Rattle.commands.specs.Parsing.{arguments as arguments_in, command_in, parsed, Parses};

use crate::command::Command;
use crate::drafts::read_draft;
use crate::fields::{Fields, before_comment, is_plain};
use crate::forms::{read_plain, read_with_bytes, read_with_words};
use crate::verb::Verb;
use crate::verbs::verb_of;
use crate::wrong::{ParseFault, Wrong};
use std::alloc::Global;

// A line has at most this many bytes, without its line feed.
pub const MOST_BYTES: usize = 65536;

// The command of this verb, by the fields after its name.
fn read_arguments(heap: Global, verb: Verb, fields: Fields<'_>) -> Result<Command, ParseFault>
    ensures { Reads by_command result (arguments_in verb (coming fields.entry)) }
{
    match verb {
        Verb::Plain(plain) => read_plain(plain, fields),
        Verb::Words(words) => read_with_words(heap, words, fields),
        Verb::Bytes(bytes) => read_with_bytes(heap, bytes, fields),
        Verb::Draft => read_draft(heap, fields),
    }
}

// The command that these fields are; None where there are none.
fn read_command(heap: Global, mut fields: Fields<'_>) -> Result<Option<Command>, ParseFault>
    ensures { Parses result (command_in (coming fields.entry)) }
{
    let Some(name) = fields.next() else {
        return Ok(None);
    };
    let Some(verb) = verb_of(name) else {
        return Err(ParseFault::Wrong(Wrong::NoSuchCommand));
    };
    let command = read_arguments(heap, verb, fields)?;
    Ok(Some(command))
}

// The command of a line without its line feed; None where the line has no fields. Refuses, in this order, with
// LineTooLong, StrayByte, NoSuchCommand, BadArguments; NoMemory only where there are fields.
#[tactic(auto, using(crate::proofs::Stretches::all_plain_is))]
pub fn parse(heap: Global, line: &[u8]) -> Result<Option<Command>, ParseFault>
    ensures { Parses result (parsed line.now) }
{
    if line.len() > MOST_BYTES {
        return Err(ParseFault::Wrong(Wrong::LineTooLong));
    }
    let text = before_comment(line);
    if !is_plain(text) {
        return Err(ParseFault::Wrong(Wrong::StrayByte));
    }
    read_command(heap, Fields::of(text))
}
