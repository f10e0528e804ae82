// Commands of the console, typed.
ghost use Rattle.std.specs.Prelude.{◌≡◌};
ghost use Rattle.journal.specs.Asked.{asked};
ghost use Rattle.commands.specs.Commands.{owned};

use crate::slot::Slot;
use journal::correction::Correction;
use series::interval::Interval;

// At a place, so many readings are struck and these words entered there.
#[derive(Drop)]
pub struct OwnedCorrection {
    pub place: u32,
    pub struck: u32,
    pub words: Vec<u64>,
}

impl OwnedCorrection {
    // The same, its words lent.
    pub fn lend(&self) -> Correction<'_>
        ensures { asked result ≡ owned self.now }
    {
        Correction {
            place: self.place,
            struck: self.struck,
            words: self.words.as_slice(),
        }
    }
}

// A bottom: a register of these readings, so many places of one reading, or a packed profile.
#[derive(Drop)]
pub enum Bottom {
    Register(Vec<Interval>),
    Nominal { reading: Interval, length: u32 },
    Profile(Vec<u8>),
}

// A check over the bottom.
#[derive(Clone, Copy)]
pub struct CheckLayer {
    pub tag: u8,
    pub limit: u32,
}

// What is to lie beneath the journals.
#[derive(Drop)]
pub enum Layer {
    Bottom(Bottom),
    // None takes the check away.
    Check(Option<CheckLayer>),
}

// What is to be done to a journal.
#[derive(Drop)]
pub enum Change {
    Start(u32),
    Enter {
        place: u32,
        words: Vec<u64>,
    },
    Strike {
        place: u32,
        struck: u32,
    },
    Replace(OwnedCorrection),
    Batch(Vec<u8>),
    // Corrections in turn, in a draft that is kept or let go.
    Draft {
        corrections: Vec<OwnedCorrection>,
        keep: bool,
    },
    Tidy,
}

// What is to be shown of a journal.
#[derive(Clone, Copy)]
pub enum View {
    Pieces,
    Words,
    Length,
    Walk,
    Origin(u32),
}

// What is asked of a journal laid on the series beneath.
#[derive(Clone, Copy)]
pub enum Question {
    Fits,
    Read { tag: u8, place: u32 },
    Flatten { tag: u8 },
}

#[derive(Drop)]
pub enum Command {
    Lay(Layer),
    Change {
        journal: Slot,
        change: Change,
    },
    Fold {
        lower: Slot,
        upper: Slot,
        third: Slot,
    },
    Show {
        journal: Slot,
        view: View,
    },
    Ask {
        journal: Slot,
        question: Question,
    },
    // The place of the upper journal, laid on the lower, laid on the series beneath.
    Pile {
        lower: Slot,
        upper: Slot,
        place: u32,
    },
    // The bytes of a correction's record, and the correction of a record's bytes.
    Record(OwnedCorrection),
    Unrecord(Vec<u8>),
}
