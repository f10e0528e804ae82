// The corrections of a draft, between semicolons.
ghost use Rattle.std.specs.Prelude.{map};
ghost use Rattle.std.specs.Option.{option_map};
ghost use Rattle.commands.specs.Arguments.{correction_first, Reads};
ghost use Rattle.commands.specs.Coming.{coming};
ghost use Rattle.commands.specs.Commands.{owned, by_command};
ghost use Rattle.commands.specs.Parsing.{corrections_in, segments, draft_command};

use crate::arguments::read_segment;
use crate::command::{Change, Command, OwnedCorrection};
use crate::fields::Fields;
use crate::numbers::Numbers;
use crate::parts::change_of;
use crate::verbs::keep_of;
use crate::wrong::{BAD_ARGUMENTS, ParseFault};
use std::alloc::Global;

// The correction before the first semicolon, a place, a count and words, and the fields past it; None where
// there is no semicolon.
fn read_correction<'a>(
    heap: Global,
    mut fields: Fields<'a>,
) -> Result<(OwnedCorrection, Option<Fields<'a>>), ParseFault>
    ensures { Reads (λ p. (owned p.0, option_map coming p.1)) result (correction_first (coming fields.entry)) }
{
    let (place, struck) = Numbers::read(&mut fields)?;
    let (words, others) = read_segment(heap, fields)?;
    let correction = OwnedCorrection {
        place,
        struck,
        words,
    };
    Ok((correction, others))
}

// The corrections between semicolons.
fn read_corrections(heap: Global, fields: Fields<'_>) -> Result<Vec<OwnedCorrection>, ParseFault>
    ensures { Reads (λ v. map owned v.items) result (corrections_in (segments (coming fields.entry))) }
{
    let mut corrections = Vec::new(heap);
    let mut rest = Some(fields);
    while let Some(fields) = rest {
        let (correction, others) = read_correction(heap, fields)?;
        corrections.push(correction)?;
        rest = others;
    }
    Ok(corrections)
}

// A draft: a journal, keep or drop, and corrections.
pub(crate) fn read_draft(heap: Global, mut fields: Fields<'_>) -> Result<Command, ParseFault>
    ensures { Reads by_command result (draft_command (coming fields.entry)) }
{
    let journal = Numbers::read(&mut fields)?;
    let keep = fields.next().and_then(keep_of).ok_or(BAD_ARGUMENTS)?;
    let corrections = read_corrections(heap, fields)?;
    Ok(change_of(journal, Change::Draft { corrections, keep }))
}
