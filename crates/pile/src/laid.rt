// A journal laid on a base, with a tag: a base that reads each place by its origin.
ghost use Rattle.std.specs.Prelude.{◌≡◌, length as count, ◌==◌};
ghost use Rattle.series.specs.Lists.{nth};
ghost use Rattle.series.specs.Refusals.{by_number, with_ok};
ghost use Rattle.journal.specs.Machine.{answers};
ghost use Rattle.journal.specs.Journals.{state, told};
ghost use Rattle.pile.specs.LaidCells.{laid_on, laid_cells, laid-few};
ghost use Rattle.pile.specs.Led.{Balanced, TellsItem, ReadsItem};

use journal::journal::Journal;
use journal::origin::Origin;
use series::base::Base;
use series::cell::Cell;
use series::fault::Fault;
use series::fault::causes::Cause;
use series::reading::Reading;
use series::refusal::Refusal;

pub mod fold;
pub mod traced;

// The base is held by value beside a plain journal.
#[derive(Drop)]
pub struct Laid<B> {
    base: B,
    journal: Journal,
    tag: u8,
}

// Whether a journal was started for a base's length.
pub fn fits<B: Base>(journal: &Journal, base: &B) -> bool
    ensures { result ≡ ((state journal.now).started == count (B.Base.cells base.now)) }
{
    journal.started() == base.length()
}

impl<B: Base> Laid<B> {
    // Lays `journal` on `base`. Never refuses, whether it fits or not.
    pub fn new(base: B, journal: Journal, tag: u8) -> Laid<B>
        ensures { result ≡ laid_on base journal tag }
    {
        Laid { base, journal, tag }
    }

    // Where a place comes from: a place of the base beneath, or a word entered in this journal.
    // Refuses with NoSuchPlace exactly at or past the length. Whatever calls led a journal that fits to
    // this one, what is told is the item that stands there.
    pub fn origin(&self, place: u32) -> Result<Origin, Refusal>
        ensures answer { by_number (with_ok told result) ≡ nth (answers (state self.now.journal)) place }
        ensures stands { TellsItem (count (B.Base.cells self.now.base)) (state self.now.journal) place (by_number (with_ok told result)) }
    {
        self.journal.origin(place)
    }
}

impl<B: Base> Base for Laid<B> {
    type Kind = B::Kind;

    ghost cells = { laid_cells B.Kind.Reading.reading B.Base.cells };

    ghost few = { laid-few B.Kind.Reading.reading B.Base.cells };

    // Whatever calls led a journal that fits to this one, the length and all struck are together the
    // base's length and all entered.
    fn length(&self) -> u32
        ensures length { result ≡ count (laid_cells B.Kind.Reading.reading B.Base.cells self.now) }
        ensures balance { Balanced (count (B.Base.cells self.now.base)) (state self.now.journal) result }
    {
        self.journal.length()
    }

    // Whatever calls led a journal that fits to this one, a base place reads as the base's cell, and an
    // entry as its word's reading.
    fn read(&self, place: u32) -> Result<Cell<B::Kind>, Refusal>
        ensures cell { by_number result ≡ nth (laid_cells B.Kind.Reading.reading B.Base.cells self.now) place }
        ensures stands { ReadsItem B.Kind.Reading.reading (B.Base.cells self.now.base) (state self.now.journal) place (by_number result) }
    {
        match self.journal.origin(place)? {
            Origin::Base(at) => {
                let past = Cell::Fault(Fault::new(Cause::PastBase, self.tag, at));
                Ok(self.base.read(at).unwrap_or(past))
            }
            Origin::Entered(word) => Ok(Cell::Reading(B::Kind::from_word(word))),
        }
    }
}
