// The arguments of each kind of command.
ghost use Rattle.std.specs.Prelude.{◌≡◌, map, IfOk};
ghost use Rattle.series.specs.Words.{interval_of};
ghost use Rattle.commands.specs.Arguments.{Reads};
ghost use Rattle.commands.specs.Coming.{coming};
ghost use Rattle.commands.specs.Commands.{by_command};
ghost use Rattle.commands.specs.Parsing.{arguments as arguments_in};
ghost use Rattle.commands.specs.declared.verb.Verb.TheVariants.{Plain, Words, Bytes};

use crate::arguments::{read_bytes, read_numbers, read_numbers_and_words, read_words};
use crate::command::{Bottom, Change, Command, Layer, OwnedCorrection, Question, View};
use crate::fields::Fields;
use crate::numbers::Numbers;
use crate::parts::{
    change_of, check_of, fold_of, nominal_of, pile_of, question_of, read_of, strike_of, view_of,
};
use crate::verb::{BytesVerb, PlainVerb, WordsVerb};
use crate::wrong::ParseFault;
use series::interval::Interval;
use series::reading::Reading;
use std::alloc::{AllocError, Global};

// A command of so many numbers and nothing more.
pub(crate) fn read_plain(verb: PlainVerb, fields: Fields<'_>) -> Result<Command, ParseFault>
    ensures { Reads by_command result (arguments_in (Plain verb) (coming fields.entry)) }
{
    match verb {
        PlainVerb::Nominal => read_numbers(fields).map(|(word, length)| nominal_of(word, length)),
        PlainVerb::Check => read_numbers(fields).map(|(tag, limit)| check_of(tag, limit)),
        PlainVerb::NoCheck => read_numbers(fields).map(|()| Command::Lay(Layer::Check(None))),
        PlainVerb::Start => {
            read_numbers(fields).map(|(journal, length)| change_of(journal, Change::Start(length)))
        }
        PlainVerb::Strike => read_numbers(fields).map(|(journal, place, struck)| strike_of(
            journal, place, struck,
        )),
        PlainVerb::Tidy => read_numbers(fields).map(|journal| change_of(journal, Change::Tidy)),
        PlainVerb::Fold => read_numbers(fields).map(|(lower, upper, third)| fold_of(
            lower, upper, third,
        )),
        PlainVerb::Pieces => read_numbers(fields).map(|journal| view_of(journal, View::Pieces)),
        PlainVerb::Words => read_numbers(fields).map(|journal| view_of(journal, View::Words)),
        PlainVerb::Length => read_numbers(fields).map(|journal| view_of(journal, View::Length)),
        PlainVerb::Fits => read_numbers(fields).map(|journal| question_of(journal, Question::Fits)),
        PlainVerb::Origin => {
            read_numbers(fields).map(|(journal, place)| view_of(journal, View::Origin(place)))
        }
        PlainVerb::Read => read_numbers(fields).map(|(journal, tag, place)| read_of(
            journal, tag, place,
        )),
        PlainVerb::Pile => read_numbers(fields).map(|(lower, upper, place)| pile_of(
            lower, upper, place,
        )),
        PlainVerb::Flatten => {
            read_numbers(fields).map(|(journal, tag)| question_of(
                journal,
                Question::Flatten { tag },
            ))
        }
        PlainVerb::Walk => read_numbers(fields).map(|journal| view_of(journal, View::Walk)),
    }
}

// The intervals of these words.
fn intervals(heap: Global, words: &[u64]) -> Result<Vec<Interval>, AllocError>
    ensures { IfOk result (λ v. v.items ≡ map interval_of words.now) }
{
    words.iter().copied().map(Interval::from_word).collect(heap)
}

// A command that ends in words.
pub(crate) fn read_with_words(
    heap: Global,
    verb: WordsVerb,
    fields: Fields<'_>,
) -> Result<Command, ParseFault>
    ensures { Reads by_command result (arguments_in (Words verb) (coming fields.entry)) }
{
    match verb {
        WordsVerb::Register => {
            let words = read_words(heap, fields)?;
            let readings = intervals(heap, &words)?;
            Ok(Command::Lay(Layer::Bottom(Bottom::Register(readings))))
        }
        WordsVerb::Enter => {
            let ((journal, place), words) = read_numbers_and_words(heap, fields)?;
            Ok(change_of(journal, Change::Enter { place, words }))
        }
        WordsVerb::Replace => {
            let ((journal, place, struck), words) = read_numbers_and_words(heap, fields)?;
            let correction = OwnedCorrection {
                place,
                struck,
                words,
            };
            Ok(change_of(journal, Change::Replace(correction)))
        }
        WordsVerb::Record => {
            let ((place, struck), words) = read_numbers_and_words(heap, fields)?;
            Ok(Command::Record(OwnedCorrection {
                place,
                struck,
                words,
            }))
        }
    }
}

// A command that ends in bytes.
pub(crate) fn read_with_bytes(
    heap: Global,
    verb: BytesVerb,
    mut fields: Fields<'_>,
) -> Result<Command, ParseFault>
    ensures { Reads by_command result (arguments_in (Bytes verb) (coming fields.entry)) }
{
    match verb {
        BytesVerb::Profile => {
            let bytes = read_bytes(heap, fields)?;
            Ok(Command::Lay(Layer::Bottom(Bottom::Profile(bytes))))
        }
        BytesVerb::Batch => {
            let journal = Numbers::read(&mut fields)?;
            let bytes = read_bytes(heap, fields)?;
            Ok(change_of(journal, Change::Batch(bytes)))
        }
        BytesVerb::Unrecord => Ok(Command::Unrecord(read_bytes(heap, fields)?)),
    }
}
