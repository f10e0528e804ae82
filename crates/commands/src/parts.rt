// Commands from their numbers and what follows them.
ghost use Rattle.std.specs.Prelude.{◌≡◌, []};
ghost use Rattle.series.specs.Words.{interval_of};
ghost use Rattle.journal.specs.Machine.{correction};
ghost use Rattle.commands.specs.declared.command.Question.TheVariants.{Read as asks_read};
ghost use Rattle.commands.specs.Commands.{by_change, by_command, lay, nominal, check, correct, change as changes, fold, show as shows, ask as asks, pile};

use crate::command::{Bottom, Change, CheckLayer, Command, Layer, Question, View};
use crate::slot::Slot;
use series::interval::Interval;
use series::reading::Reading;

// This change to a journal.
pub(crate) fn change_of(journal: Slot, change: Change) -> Command
    ensures { by_command result ≡ changes journal.number (by_change change) }
{
    Command::Change { journal, change }
}

// This view of a journal.
pub(crate) fn view_of(journal: Slot, view: View) -> Command
    ensures { by_command result ≡ shows journal.number view }
{
    Command::Show { journal, view }
}

// This question about a journal.
pub(crate) fn question_of(journal: Slot, question: Question) -> Command
    ensures { by_command result ≡ asks journal.number question }
{
    Command::Ask { journal, question }
}

// So many places of the reading of a word.
pub(crate) fn nominal_of(word: u64, length: u32) -> Command
    ensures { by_command result ≡ lay (nominal (interval_of word) length) }
{
    Command::Lay(Layer::Bottom(Bottom::Nominal {
        reading: Interval::from_word(word),
        length,
    }))
}

// A check with this tag and limit.
pub(crate) fn check_of(tag: u8, limit: u32) -> Command
    ensures { by_command result ≡ lay (check tag limit) }
{
    Command::Lay(Layer::Check(Some(CheckLayer { tag, limit })))
}

// So many readings struck at a place of a journal.
pub(crate) fn strike_of(journal: Slot, place: u32, struck: u32) -> Command
    ensures { by_command result ≡ changes journal.number (correct (correction place struck [])) }
{
    change_of(journal, Change::Strike { place, struck })
}

// The fold of the first two journals, into the last.
pub(crate) fn fold_of(lower: Slot, upper: Slot, third: Slot) -> Command
    ensures { by_command result ≡ fold lower.number upper.number third.number }
{
    Command::Fold {
        lower,
        upper,
        third,
    }
}

// What a place of a journal reads as, with this tag.
pub(crate) fn read_of(journal: Slot, tag: u8, place: u32) -> Command
    ensures { by_command result ≡ asks journal.number (asks_read tag place) }
{
    question_of(journal, Question::Read { tag, place })
}

// A place of the pile of two journals.
pub(crate) fn pile_of(lower: Slot, upper: Slot, place: u32) -> Command
    ensures { by_command result ≡ pile lower.number upper.number place }
{
    Command::Pile {
        lower,
        upper,
        place,
    }
}
