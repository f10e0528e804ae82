// Changes of a journal, each with the text of its answer.
ghost use Rattle.std.specs.Prelude.{◌≡◌, true, ◌++◌, map, length as count, is_err, IfOk, if◌then◌else◌, string_bytes, codes, OnOk, nat_eq};
ghost use Rattle.series.specs.Refusals.{by_number, with_ok};
ghost use Rattle.journal.specs.Drafts.{Continues};
ghost use Rattle.journal.specs.Journals.{state, begun};
ghost use Rattle.journal.specs.Machine.{corrected_all};
ghost use Rattle.journal.specs.Tidied.{tidied};
ghost use Rattle.records.specs.Batches.{batch_outcome};
ghost use Rattle.commands.specs.Commands.{owned, by_change};
ghost use Rattle.answers.specs.Texts.{ok_text, answer_text, separated};
ghost use Rattle.answers.specs.Changes.{batch_text, draft_answers, kept_text, tidy_text, changed};

use crate::texts::{Accepted, Answer, length_text};
use commands::command::{Change, OwnedCorrection};
use journal::draft::Draft;
use journal::journal::Journal;
use records::batch::batch;
use series::refusal::Refusal;
use std::alloc::{AllocError, Global};

// Starts a journal for so many places.
fn start(heap: Global, journal: &mut Journal, length: u32) -> Result<String, AllocError>
    ensures text { IfOk result (λ text. string_bytes text ≡ answer_text ok_text (with_ok (λ _. length) (begun (state journal.old) length).0)) }
    ensures state { state journal.new ≡ (begun (state journal.old) length).1 }
{
    length_text(heap, journal.start(length).map(|()| length))
}

// Makes the records of a batch in turn.
fn make_batch(heap: Global, journal: &mut Journal, bytes: &[u8]) -> Result<String, AllocError>
    ensures text { IfOk result (λ text. string_bytes text ≡ batch_text (batch_outcome (state journal.old) bytes.now).0) }
    ensures state { state journal.new ≡ (batch_outcome (state journal.old) bytes.now).1 }
{
    format!(in heap; "{}", Answer(batch(journal, bytes).map(Accepted)))
}

// Tidies a journal.
fn tidy(heap: Global, journal: &mut Journal) -> Result<String, AllocError>
    ensures text { IfOk result (λ text. string_bytes text ≡ tidy_text (tidied (state journal.old))) }
    ensures state { state journal.new ≡ tidied (state journal.old) }
{
    journal.tidy();
    format!(in heap; "ok {} {}", journal.pieces().len(), journal.words().len())
}

// Adds a correction's answer to those before it.
fn push_answer(text: &mut String, answer: Result<u32, Refusal>) -> Result<(), AllocError>
    ensures { OnOk result (string_bytes text.new ≡ string_bytes text.old ++ ((if nat_eq (count (string_bytes text.old)) 0 then codes "" else codes ", ") ++ answer_text ok_text (by_number answer))) }
{
    let separator = if text.is_empty() { "" } else { ", " };
    write!(text, "{separator}{}", Answer(answer.map(Accepted)))
}

// Makes corrections in a draft in turn, a refused one passed over, and tells what each answers.
fn correct_all(
    heap: Global,
    draft: &mut Draft<'_>,
    corrections: &[OwnedCorrection],
) -> Result<String, AllocError>
    ensures text { IfOk result (λ text. string_bytes text ≡ separated (codes ", ") (answer_text ok_text) (draft_answers (state draft.old.journal.now) (map owned corrections.now))) }
    ensures state { OnOk result (state draft.new.journal.now ≡ corrected_all (state draft.old.journal.now) (map owned corrections.now)) }
    ensures continues { Continues draft.old draft.new }
{
    let mut text = String::new(heap);
    for c in corrections {
        let answer = draft.replace(c.place, c.struck, c.words.as_slice());
        push_answer(&mut text, answer)?;
    }
    Ok(text)
}

// Keeps a draft or lets it go. A function of its own, since a draft that is moved on one path alone has to end there.
fn end_draft(draft: Draft<'_>, keep: bool)
    ensures { draft.exit.0.now ≡ (if keep then draft.entry.journal.now else draft.entry.before) }
{
    if keep {
        draft.keep();
    }
}

// Makes corrections in a draft, and keeps it or lets it go.
fn make_draft(
    heap: Global,
    journal: &mut Journal,
    corrections: &[OwnedCorrection],
    keep: bool,
) -> Result<String, AllocError>
    ensures text { IfOk result (λ text. string_bytes text ≡ separated (codes ", ") (answer_text ok_text) (draft_answers (state journal.old) (map owned corrections.now)) ++ kept_text keep) }
    ensures state { OnOk result (state journal.new ≡ (if keep then corrected_all (state journal.old) (map owned corrections.now) else state journal.old)) }
{
    let mut draft = Draft::open(journal);
    let mut text = correct_all(heap, &mut draft, corrections)?;
    end_draft(draft, keep);
    text.push_str(if keep { " kept" } else { " dropped" })?;
    Ok(text)
}

// Makes a change on a journal, and answers its text. Want of memory may leave the journal changed.
fn change_text(heap: Global, journal: &mut Journal, change: &Change) -> Result<String, AllocError>
    ensures { IfOk result (λ text. (string_bytes text, state journal.new) ≡ changed (state journal.old) (by_change change.now)) }
{
    match change {
        Change::Start(length) => start(heap, journal, *length),
        Change::Enter { place, words } => length_text(
            heap,
            journal.enter(*place, words.as_slice()),
        ),
        Change::Strike { place, struck } => length_text(heap, journal.strike(*place, *struck)),
        Change::Replace(c) => length_text(
            heap,
            journal.replace(c.place, c.struck, c.words.as_slice()),
        ),
        Change::Batch(bytes) => make_batch(heap, journal, bytes.as_slice()),
        Change::Draft { corrections, keep } => make_draft(
            heap,
            journal,
            corrections.as_slice(),
            *keep,
        ),
        Change::Tidy => tidy(heap, journal),
    }
}

// Makes a change on a journal, and answers its text. Want of memory leaves the journal as it was.
pub fn make_change(
    heap: Global,
    journal: &mut Journal,
    change: &Change,
) -> Result<String, AllocError>
    ensures outcome { IfOk result (λ text. (string_bytes text, state journal.new) ≡ changed (state journal.old) (by_change change.now)) }
    ensures same { is_err result ≡ true → journal.new ≡ journal.old }
{
    let mut changing = *journal;
    let text = change_text(heap, &mut changing, change)?;
    *journal = changing;
    Ok(text)
}
