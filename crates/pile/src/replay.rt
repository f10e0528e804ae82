// Histories: calls made on a journal in turn, and the journal laid on the base that it was started for.
ghost use Rattle.std.specs.Prelude.{◌≡◌, map, length as count, if◌then◌else◌, slice_set};
ghost use Rattle.journal.specs.Machine.{start, corrected_all};
ghost use Rattle.journal.specs.Asked.{asked};
ghost use Rattle.journal.specs.Drafts.{Continues};
ghost use Rattle.journal.specs.Journals.{state};
ghost use Rattle.history.specs.Calls.{ran};
ghost use Rattle.history.specs.History.{Law};
ghost use Rattle.pile.specs.Heard.{heard};
ghost use Rattle.pile.specs.Outcomes.{by_outcome, passing, carried, outcomes_of, noted};
ghost use Rattle.pile.specs.LaidCells.{laid_on, laid_cells};

use crate::call::Call;
use crate::laid::Laid;
use crate::outcome::Outcome;
use journal::correction::Correction;
use journal::draft::Draft;
use journal::journal::Journal;
use records::batch::batch;
use series::base::Base;

// Makes corrections in a draft in turn; a refused one is passed over. Answers how many were accepted.
fn correct_all(draft: &mut Draft<'_>, corrections: &[Correction<'_>]) -> usize
    ensures accepted { result ≡ passing (state draft.old.journal.now) (map asked corrections.now) }
    ensures state { state draft.new.journal.now ≡ corrected_all (state draft.old.journal.now) (map asked corrections.now) }
    ensures continues { Continues draft.old draft.new }
{
    let mut accepted = 0;
    for c in corrections {
        accepted += usize::from(draft.replace(c.place, c.struck, c.words).is_ok());
    }
    accepted
}

// Makes corrections in a draft, and keeps it or lets it go. Answers how many were accepted.
fn draft_all(journal: &mut Journal, corrections: &[Correction<'_>], keep: bool) -> usize
    ensures accepted { result ≡ passing (state journal.old) (map asked corrections.now) }
    ensures state { state journal.new ≡ (if keep then corrected_all (state journal.old) (map asked corrections.now) else state journal.old) }
{
    let mut draft = Draft::open(journal);
    let accepted = correct_all(&mut draft, corrections);
    if keep {
        draft.keep();
    }
    accepted
}

// Makes a call on a journal, and tells what it came to.
pub fn carry_out(journal: &mut Journal, call: &Call<'_>) -> Outcome
    ensures { (by_outcome result, state journal.new) ≡ carried (state journal.old) call.now }
{
    match *call {
        Call::Enter { place, words } => Outcome::Corrected(journal.enter(place, words)),
        Call::Strike { place, count } => Outcome::Corrected(journal.strike(place, count)),
        Call::Replace(c) => Outcome::Corrected(journal.replace(c.place, c.struck, c.words)),
        Call::Batch(bytes) => Outcome::Batched(batch(journal, bytes)),
        Call::Draft { corrections, keep } => Outcome::Drafted(draft_all(
            journal,
            corrections,
            keep,
        )),
        Call::Tidy => {
            journal.tidy();
            Outcome::Tidied
        }
    }
}

// Notes what a call came to, where there is room for it.
fn note(outcomes: &mut [Outcome], at: usize, outcome: Outcome)
    ensures { outcomes.new ≡ slice_set outcomes.old at outcome }
{
    // Tested by length, since of a slice that `get_mut` lent from nothing is known afterwards.
    if at < outcomes.len() {
        outcomes[at] = outcome;
    }
}

// Starts a journal for a base, makes the calls on it in turn, refused ones among them, and lays it on
// the base with this tag. What each call came to is written to `outcomes`, as far as there is room; the
// rest of it is untouched.
pub fn replay<B: Base>(base: B, tag: u8, calls: &[Call<'_>], outcomes: &mut [Outcome]) -> Laid<B>
    ensures state { state result.journal ≡ ran (start (count (B.Base.cells base))) (map heard calls.now) }
    ensures lies { result ≡ laid_on base result.journal tag }
    ensures outcomes { map by_outcome outcomes.new ≡ noted (outcomes_of (start (count (B.Base.cells base))) calls.now) (map by_outcome outcomes.old) }
    ensures law { Law (count (B.Base.cells base)) (map heard calls.now) B.Kind.Reading.word B.Kind.Reading.reading (state result.journal) (B.Base.cells base) (laid_cells B.Kind.Reading.reading B.Base.cells result) }
{
    let mut journal = Journal::new();
    // No base is longer than a journal may be started for.
    let _ = journal.start(base.length());
    for (at, call) in calls.iter().enumerate() {
        let outcome = carry_out(&mut journal, call);
        note(outcomes, at, outcome);
    }
    Laid::new(base, journal, tag)
}
