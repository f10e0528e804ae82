// Starting a journal, and what it tells.
ghost use Rattle.std.specs.Prelude.{◌≡◌, ◌≤◌, true, length as count_of, is_err};
ghost use Rattle.series.specs.Lists.{nth};
ghost use Rattle.series.specs.Refusals.{by_number, with_ok};
ghost use Rattle.journal.specs.Machine.{start as started_for, answers};
ghost use Rattle.journal.specs.Pieces.{gathered};
ghost use Rattle.journal.specs.Journals.{state, told, begun};

use super::{Journal, MOST_PLACES};
use crate::origin::Origin;
use crate::piece::{Piece, Source};
use crate::table::Table;
use crate::words::WordStore;
use series::refusal::Refusal;

impl Journal {
    // A journal for length 0.
    pub fn new() -> Journal
        ensures { state result ≡ started_for 0 }
    {
        Journal::for_base(0)
    }

    // A journal for a base of `length` places, without corrections.
    fn for_base(length: u32) -> Journal
        requires { length ≤ 1048576 }
        ensures { state result ≡ started_for length }
    {
        Journal {
            started: length,
            table: Table::kept(length),
            words: WordStore::empty(),
        }
    }

    // Becomes a journal for a base of `length` places, without corrections. Refuses with TooLong; a
    // refusal leaves the journal as it was.
    pub fn start(&mut self, length: u32) -> Result<(), Refusal>
        ensures outcome { (by_number result, state self.new) ≡ begun (state self.old) length }
        ensures same { is_err result ≡ true → self.new ≡ self.old }
    {
        if length > MOST_PLACES {
            return Err(Refusal::TooLong);
        }
        *self = Journal::for_base(length);
        Ok(())
    }

    // The length that the journal was started for.
    pub fn started(&self) -> u32
        ensures { result ≡ (state self.now).started }
    {
        self.started
    }

    // The length of the edited series.
    pub fn length(&self) -> u32
        ensures { result ≡ count_of (state self.now).origins }
    {
        self.table.length()
    }

    // Where a place of the edited series comes from; refuses with NoSuchPlace exactly at or past the length.
    pub fn origin(&self, place: u32) -> Result<Origin, Refusal>
        ensures { by_number (with_ok told result) ≡ nth (answers (state self.now)) place }
    {
        let (source, number) = self.table.find(place)?;
        match source {
            Source::Kept => Ok(Origin::Base(number)),
            Source::Entered => Ok(Origin::Entered(self.words.word(number))),
        }
    }

    // The pieces: those that the origins make, joined.
    pub fn pieces(&self) -> &[Piece]
        ensures { result.now ≡ gathered (state self.now).origins }
    {
        self.table.as_slice()
    }

    // The words in use, in the order in which they were entered.
    pub fn words(&self) -> &[u64]
        ensures { result.now ≡ (state self.now).words }
    {
        self.words.as_slice()
    }
}
