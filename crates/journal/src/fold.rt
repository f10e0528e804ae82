// Folding two neighbours of a pile to one journal.
ghost use Rattle.std.specs.Prelude.{◌≡◌, true, map, length as count_of, is_err};
ghost use Rattle.series.specs.Refusals.{by_number};
ghost use Rattle.journal.specs.Machine.{answers};
ghost use Rattle.journal.specs.Journals.{state};
ghost use Rattle.journal.specs.Folded.{followed, fold_outcome};
ghost use Rattle.journal.specs.Layouts.{Laid};

use crate::journal::Journal;
use crate::journal::layout::Layout;
use crate::walk::Run;
use series::refusal::Refusal;

// What the upper answers, its base places followed to what the lower answers there. A kept run
// brings the lower's pieces in its range, an entered run its words. Refuses with TooManyWords.
fn laid_through(lower: &Journal, upper: &Journal) -> Result<Layout, Refusal>
    requires { (state upper.now).started ≡ count_of (state lower.now).origins }
    ensures { Laid result (map (followed (answers (state lower.now))) (answers (state upper.now))) }
{
    let mut layout = Layout::new();
    for run in upper.walk() {
        match run {
            Run::Kept { place, count } => layout.take(lower, place, place + count)?,
            Run::Entered { first: _, words } => layout.enter(words)?,
        }
    }
    Ok(layout)
}

// Makes `third` the one journal in the place of the lower and the upper, tidied, and answers its
// edited length. Refuses, in this order, with NotForLower, TooManyWords, TooManyPieces; a refusal
// leaves the third journal as it was.
pub fn fold(lower: &Journal, upper: &Journal, third: &mut Journal) -> Result<u32, Refusal>
    ensures outcome { (by_number result, state third.new) ≡ fold_outcome (state lower.now) (state upper.now) (state third.old) }
    ensures same { is_err result ≡ true → third.new ≡ third.old }
{
    if upper.started() != lower.length() {
        return Err(Refusal::NotForLower);
    }
    let layout = laid_through(lower, upper)?;
    *third = layout.finish(lower.started())?;
    Ok(upper.length())
}
