// What is answered of journals laid on any base of intervals.
ghost use Rattle.std.specs.Prelude.{◌≡◌, [], ◌++◌, IfOk, string_bytes, codes};
ghost use Rattle.series.specs.Lists.{nth};
ghost use Rattle.journal.specs.Journals.{state};
ghost use Rattle.folding.specs.Piles.{down};
ghost use Rattle.listing.specs.Lines.{cell_text};
ghost use Rattle.commands.specs.declared.command.Question.TheVariants.{Fits};
ghost use Rattle.answers.specs.Texts.{answer_text};
ghost use Rattle.journal.specs.Texts.{origin_text};
ghost use Rattle.questions.specs.Questions.{question_text, pile_text, inquiry_text};

use crate::inquiry::Inquiry;
use answers::texts::Answer;
use commands::command::Question;
use flattened::flatten_text;
use journal::journal::Journal;
use pile::laid::{Laid, fits};
use pile::traced::Traced;
use series::base::Base;
use series::interval::Interval;
use std::alloc::{AllocError, Global};

mod flattened;

// The tags of a pile's journals.
const LOWER_TAG: u8 = 3;

const UPPER_TAG: u8 = 4;

// Whether a journal fits a base, as yes or no.
fn fits_text<B: Base<Kind = Interval>>(
    heap: Global,
    base: &B,
    journal: &Journal,
) -> Result<String, AllocError>
    ensures { IfOk result (λ text. string_bytes text ≡ question_text (B.Base.cells base.now) (state journal.now) Fits) }
{
    if fits(journal, base) {
        String::from_str(heap, "yes")
    } else {
        String::from_str(heap, "no")
    }
}

// The cell at a place of a base.
fn read_text<B: Base<Kind = Interval>>(
    heap: Global,
    base: &B,
    place: u32,
) -> Result<String, AllocError>
    ensures { IfOk result (λ text. string_bytes text ≡ answer_text cell_text (nth (B.Base.cells base.now) place)) }
{
    Answer(base.read(place)).to_string(heap)
}

// The answer to a question of one journal.
fn answer_question<B: Base<Kind = Interval> + Drop>(
    heap: Global,
    base: B,
    journal: Journal,
    question: Question,
) -> Result<String, AllocError>
    ensures { IfOk result (λ text. string_bytes text ≡ question_text (B.Base.cells base) (state journal) question) }
{
    match question {
        Question::Fits => fits_text(heap, &base, &journal),
        Question::Read { tag, place } => read_text(heap, &Laid::new(base, journal, tag), place),
        Question::Flatten { tag } => flatten_text(heap, &Laid::new(base, journal, tag)),
    }
}

// What a place is followed down to, and its cell.
fn place_text<P: Traced<Kind = Interval>>(
    heap: Global,
    pile: &P,
    place: u32,
) -> Result<String, AllocError>
    ensures { IfOk result (λ text. string_bytes text ≡ answer_text (λ c. answer_text origin_text (down (P.Traced.journals pile.now) place) ++ (codes " " ++ cell_text c)) (nth (P.Base.cells pile.now) place)) }
{
    match pile.read(place) {
        Ok(cell) => format!(in heap; "{} {cell}", Answer(pile.trace(place))),
        Err(refusal) => refusal.to_string(heap),
    }
}

// The same of a place of one journal on another.
fn pile_text<B: Traced<Kind = Interval> + Drop>(
    heap: Global,
    base: B,
    lower: Journal,
    upper: Journal,
    place: u32,
) -> Result<String, AllocError>
    requires { B.Traced.journals base ≡ [] }
    ensures { IfOk result (λ text. string_bytes text ≡ pile_text (B.Base.cells base) (state lower) (state upper) place) }
{
    let one = Laid::new(base, lower, LOWER_TAG);
    let two = Laid::new(one, upper, UPPER_TAG);
    place_text(heap, &two, place)
}

// The answer to an inquiry over a base that has no journals of its own. The one error is want of memory.
pub(crate) fn answer_over<B: Traced<Kind = Interval> + Drop>(
    heap: Global,
    base: B,
    inquiry: &Inquiry,
) -> Result<String, AllocError>
    requires { B.Traced.journals base ≡ [] }
    ensures { IfOk result (λ text. string_bytes text ≡ inquiry_text (B.Base.cells base) inquiry.now) }
{
    match *inquiry {
        Inquiry::Laid { journal, question } => answer_question(heap, base, journal, question),
        Inquiry::Pile {
            lower,
            upper,
            place,
        } => pile_text(heap, base, lower, upper, place),
    }
}
