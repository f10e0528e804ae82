// Origins of a pile: each place followed down, from journal to journal, to the lowest journal.
ghost use Rattle.std.specs.Prelude.{◌≡◌, ℕ, List};
ghost use Rattle.series.specs.Refusals.{by_number, with_ok};
ghost use Rattle.journal.specs.Machine.{State};
ghost use Rattle.journal.specs.Journals.{told};
ghost use Rattle.folding.specs.Piles.{down};

use journal::origin::Origin;
use series::base::Base;
use series::refusal::Refusal;

pub mod bare;
pub mod check;

pub trait Traced: Base {
    // The journals that lie here one on another, from the top; a bottom has none.
    ghost journals: { Self → List (State ℕ) };

    // A base place of a journal is a place of the journal beneath it; one of the lowest journal is
    // answered as it stands, and so is a word. Refuses with NoSuchPlace where a journal on the way has
    // no such place; the bottom is not asked.
    fn trace(&self, place: u32) -> Result<Origin, Refusal>
        ensures { by_number (with_ok told result) ≡ down (journals self.now) place };
}
