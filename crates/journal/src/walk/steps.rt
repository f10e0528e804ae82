// Walking over a journal, run by run.
ghost use Rattle.std.specs.Prelude.{◌≡◌, length as count_of};
ghost use Rattle.std.specs.List.{flat_map};
ghost use Rattle.std.specs.Option.{option_map};
ghost use Rattle.journal.specs.Journals.{state};
ghost use Rattle.journal.specs.Runs.{runs, origins_of};
ghost use Rattle.journal.specs.Walks.{said, coming, next_of, walk_steps};
ghost use Rattle.std.specs.Iterator.{at_most};

use super::{Run, Walk};
use crate::journal::Journal;
use crate::piece::Source;

impl Journal {
    // A walk that has all the journal's runs to come. While it stands, the journal is not corrected.
    pub fn walk(&self) -> Walk<'_>
        ensures runs { coming result ≡ runs (state self.now) }
        ensures origins { flat_map origins_of (coming result) ≡ (state self.now).origins }
    {
        Walk {
            pieces: self.pieces().iter(),
            words: self.words(),
        }
    }
}

impl<'a> Walk<'a> {
    // The next run; None once the last one has been handed out, and ever after.
    pub fn next_run(&mut self) -> Option<Run<'a>>
        ensures { (option_map said result, coming self.new) ≡ next_of (coming self.old) }
    {
        let piece = self.pieces.next()?;
        Some(match piece.source {
            Source::Kept => Run::Kept {
                place: piece.first,
                count: piece.count,
            },
            Source::Entered => {
                let first = piece.first as usize;
                Run::Entered {
                    first: piece.first,
                    words: &self.words[first..first + piece.count as usize],
                }
            }
        })
    }
}

impl<'a> Iterator for Walk<'a> {
    type Item = Run<'a>;

    ghost next_gives = { walk_steps };

    ghost remaining = { λ w. at_most (count_of (coming w)) };

    fn next(&mut self) -> Option<Run<'a>> {
        self.next_run()
    }
}
