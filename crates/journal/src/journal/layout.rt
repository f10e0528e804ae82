// A layout: what is laid out so far of a journal whose words are numbered in the order of the series.
ghost use Rattle.std.specs.Prelude.{◌≡◌, ℕ, ◌+◌, ◌-◌, ◌≤◌, List, [], ◌++◌, map, length as count_of};
ghost use Rattle.journal.specs.declared.piece.Source.TheVariants.{Entered as EnteredSource};
ghost use Rattle.journal.specs.Machine.{Origin as AnOrigin, Answer, word as entered_word, answers};
ghost use Rattle.journal.specs.Pieces.{stretch, part};
ghost use Rattle.journal.specs.Tables.{Made};
ghost use Rattle.journal.specs.Journals.{state, told_by};
ghost use Rattle.journal.specs.Tidied.{neat};
ghost use Rattle.journal.specs.Layouts.{Lays, Takes, Extended, Completes, Completed};

use super::Journal;
use crate::piece::{Piece, Source};
use crate::table::Table;
use crate::words::WordStore;
use series::refusal::Refusal;

// A layout whose table refused a piece goes on to take words, since too many words are refused
// before too many pieces.
#[derive(Clone, Copy)]
pub(crate) struct Layout {
    table: Result<Table, Refusal>,
    words: WordStore,
}

impl Layout {
    // A layout of nothing.
    pub(crate) fn new() -> Layout
        ensures { Lays result [] }
    {
        Layout {
            table: Ok(Table::empty()),
            words: WordStore::empty(),
        }
    }

    // Puts a piece after the others, or finds that it is one too many.
    fn push(&mut self, piece: Piece)
        requires { (os : List (AnOrigin (Unit {0}))) × Made self.old.table os × (count_of os + piece.count ≤ 1048576) }
        ensures table { (os : List (AnOrigin (Unit {0}))) → Made self.old.table os → Made self.new.table (os ++ stretch piece.source piece.first piece.count) }
        ensures words { self.new.words ≡ self.old.words }
    {
        let Ok(table) = &mut self.table else {
            return;
        };
        if let Err(refusal) = table.push_joined(piece) {
            self.table = Err(refusal);
        }
    }

    // Lays out entered words. Refuses with TooManyWords.
    pub(crate) fn enter(&mut self, words: &[u64]) -> Result<(), Refusal>
        requires { Takes self.old (count_of words.now) }
        ensures { Extended self.old self.new (map entered_word words.now) result }
    {
        let used = self.words.len();
        if words.len() > self.words.room() {
            return Err(Refusal::TooManyWords);
        }
        self.push(Piece {
            source: Source::Entered,
            first: used as u32,
            count: words.len() as u32,
        });
        self.words.append(words);
        Ok(())
    }

    // Lays out what a piece over `words` stands for. Refuses with TooManyWords.
    fn lay(&mut self, piece: Piece, words: &[u64]) -> Result<(), Refusal>
        requires takes { Takes self.old piece.count }
        requires inside { EnteredSource ≡ piece.source → piece.first + piece.count ≤ count_of words.now }
        ensures { Extended self.old self.new (told_by words.now (stretch piece.source piece.first piece.count)) result }
    {
        match piece.source {
            Source::Kept => {
                self.push(piece);
                Ok(())
            }
            Source::Entered => {
                let first = piece.first as usize;
                self.enter(&words[first..first + piece.count as usize])
            }
        }
    }

    // Lays out what a journal answers from place `start` up to `end`. Refuses with TooManyWords.
    pub(crate) fn take(&mut self, journal: &Journal, start: u32, end: u32) -> Result<(), Refusal>
        requires { Takes self.old (end - start) }
        ensures { Extended self.old self.new (part start end (answers (state journal.now))) result }
    {
        let words = journal.words.as_slice();
        let pieces = journal.table.as_slice();
        let mut at = 0;
        for piece in pieces {
            self.lay(piece.cut(at, start, end), words)?;
            at += piece.count;
        }
        Ok(())
    }

    // The journal that this layout makes, started for `started` places. Refuses with TooManyPieces.
    pub(crate) fn finish(&self, started: u32) -> Result<Journal, Refusal>
        requires { (xs : List (Answer ℕ)) × Completes self.now started xs }
        ensures { (xs : List (Answer ℕ)) → Completes self.now started xs → Completed result (neat started xs) }
    {
        Ok(Journal {
            started,
            table: self.table?,
            words: self.words,
        })
    }
}
