// Folding two neighbours of a pile to one journal.
ghost use Rattle.std.specs.Prelude.{◌≡◌, IfOk};
ghost use Rattle.series.specs.Refusals.{by_number, with_ok};
ghost use Rattle.journal.specs.Journals.{state};
ghost use Rattle.journal.specs.Folded.{fold as folded_to};
ghost use Rattle.pile.specs.Neighbours.{Replaces};

use super::Laid;
use journal::fold::fold;
use journal::journal::Journal;
use series::base::Base;
use series::refusal::Refusal;

// The one journal in the place of the two uppermost of a pile, tidied. Refuses, in this order, with
// NotForLower, TooManyWords, TooManyPieces.
pub fn fold_neighbours<B: Base>(pile: &Laid<Laid<B>>) -> Result<Journal, Refusal>
    ensures outcome { by_number (with_ok state result) ≡ folded_to (state pile.now.base.journal) (state pile.now.journal) }
    ensures law { IfOk result (λ both. Replaces B.Kind.Reading.reading (B.Base.cells pile.now.base.base) (state pile.now.base.journal) (state pile.now.journal) (state both)) }
{
    let mut both = Journal::new();
    fold(&pile.base.journal, &pile.journal, &mut both)?;
    Ok(both)
}
