// A draft: corrections go through it to a journal, and are undone unless the draft is kept.
ghost use Rattle.std.specs.Prelude.{◌≡◌, []};
ghost use Rattle.series.specs.Refusals.{by_number};
ghost use Rattle.journal.specs.Machine.{outcome, correction};
ghost use Rattle.journal.specs.Journals.{state};
ghost use Rattle.journal.specs.Drafts.{Continues};

use crate::journal::Journal;
use series::refusal::Refusal;

pub struct Draft<'a> {
    journal: &'a mut Journal,
    before: Journal,
}

// A draft that is let go leaves the journal as it was when the draft was opened.
impl Drop for Draft<'_> {
    fn drop(self)
        ensures { self.exit.0.now ≡ self.entry.before }
    {
        let Draft { journal, before } = self;
        *journal = before;
    }
}

impl<'a> Draft<'a> {
    // Opens a draft; until it is kept or let go, the journal is reached through it alone.
    pub fn open(journal: &'a mut Journal) -> Draft<'a>
        ensures before { result.before ≡ journal.old }
        ensures journal { result.journal.now ≡ journal.old }
        ensures follows { result.journal.ghost_name ≡ journal.entry.ghost_name }
    {
        let before = *journal;
        Draft { journal, before }
    }

    // Enters `words` at `place`, as in the journal itself.
    pub fn enter(&mut self, place: u32, words: &[u64]) -> Result<u32, Refusal>
        ensures outcome { (by_number result, state self.new.journal.now) ≡ outcome (state self.old.journal.now) (correction place 0 words.now) }
        ensures continues { Continues self.old self.new }
    {
        self.journal.enter(place, words)
    }

    // Strikes `struck` places from `place` on, as in the journal itself.
    pub fn strike(&mut self, place: u32, struck: u32) -> Result<u32, Refusal>
        ensures outcome { (by_number result, state self.new.journal.now) ≡ outcome (state self.old.journal.now) (correction place struck []) }
        ensures continues { Continues self.old self.new }
    {
        self.journal.strike(place, struck)
    }

    // Strikes `struck` places from `place` on and enters `words` there, as in the journal itself.
    pub fn replace(&mut self, place: u32, struck: u32, words: &[u64]) -> Result<u32, Refusal>
        ensures outcome { (by_number result, state self.new.journal.now) ≡ outcome (state self.old.journal.now) (correction place struck words.now) }
        ensures continues { Continues self.old self.new }
    {
        self.journal.replace(place, struck, words)
    }

    // Ends the draft; its corrections stay. A draft that is taken apart is not dropped.
    pub fn keep(self)
        ensures { self.exit.0.now ≡ self.entry.journal.now }
    {
        let Draft {
            journal: _journal,
            before: _before,
        } = self;
    }
}
