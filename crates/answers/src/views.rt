// What is shown of a journal.
ghost use Rattle.std.specs.Prelude.{◌≡◌, ◌++◌, IfOk, string_bytes, codes, decimal, OnOk};
ghost use Rattle.journal.specs.Journals.{state};
ghost use Rattle.journal.specs.Runs.{kept_run, entered_run, runs};
ghost use Rattle.journal.specs.Walks.{said};
ghost use Rattle.answers.specs.Texts.{listed};
ghost use Rattle.answers.specs.Views.{run_text, view_text};

use crate::texts::{Answer, listed, push_each};
use commands::command::View;
use journal::journal::Journal;
use journal::walk::Run;
use std::alloc::{AllocError, Global};

// Adds a run of kept places to the text.
fn push_kept(text: &mut String, place: u32, count: u32) -> Result<(), AllocError>
    ensures { OnOk result (string_bytes text.new ≡ string_bytes text.old ++ run_text (kept_run place count)) }
{
    write!(text, "kept {place} {count}")
}

// Adds a run of entered words to the text.
fn push_entered(text: &mut String, first: u32, words: &[u64]) -> Result<(), AllocError>
    ensures { OnOk result (string_bytes text.new ≡ string_bytes text.old ++ run_text (entered_run first words.now)) }
{
    write!(text, "words {first}")?;
    push_each(text, " ", words)
}

// Adds a run to the text.
fn push_run(text: &mut String, run: Run<'_>) -> Result<(), AllocError>
    ensures { OnOk result (string_bytes text.new ≡ string_bytes text.old ++ run_text (said run.entry)) }
{
    match run {
        Run::Kept { place, count } => push_kept(text, place, count),
        Run::Entered { first, words } => push_entered(text, first, words),
    }
}

// The runs, a comma between, or none.
fn runs_text(heap: Global, journal: &Journal) -> Result<String, AllocError>
    ensures { IfOk result (λ text. string_bytes text ≡ listed (codes ", ") run_text (runs (state journal.now))) }
{
    let mut walk = journal.walk();
    let Some(first) = walk.next_run() else {
        return String::from_str(heap, "none");
    };
    let mut text = String::new(heap);
    push_run(&mut text, first)?;
    for run in walk {
        text.push_str(", ")?;
        push_run(&mut text, run)?;
    }
    Ok(text)
}

// The length started for, and the edited length.
fn lengths_text(heap: Global, started: u32, edited: u32) -> Result<String, AllocError>
    ensures { IfOk result (λ text. string_bytes text ≡ decimal started ++ (codes " " ++ decimal edited)) }
{
    format!(in heap; "{started} {edited}")
}

// The text of a view of a journal.
pub fn show(heap: Global, journal: &Journal, view: View) -> Result<String, AllocError>
    ensures { IfOk result (λ text. string_bytes text ≡ view_text (state journal.now) view) }
{
    match view {
        View::Pieces => listed(heap, " ", journal.pieces()),
        View::Words => listed(heap, " ", journal.words()),
        View::Length => lengths_text(heap, journal.started(), journal.length()),
        View::Walk => runs_text(heap, journal),
        View::Origin(place) => Answer(journal.origin(place)).to_string(heap),
    }
}
