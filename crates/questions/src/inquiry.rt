// What is asked of journals laid on the series beneath.
use commands::command::Question;
use journal::journal::Journal;

#[derive(Clone, Copy)]
pub enum Inquiry {
    // Of one journal.
    Laid {
        journal: Journal,
        question: Question,
    },
    // The place of the upper journal on the lower one.
    Pile {
        lower: Journal,
        upper: Journal,
        place: u32,
    },
}
