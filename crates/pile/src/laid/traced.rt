// Following places of a laid journal down.
ghost use Rattle.std.specs.Prelude.{◌∷◌};
ghost use Rattle.journal.specs.Journals.{state};

use super::Laid;
use crate::traced::Traced;
use journal::origin::Origin;
use series::refusal::Refusal;

impl<B: Traced> Traced for Laid<B> {
    ghost journals = { λ l. state l.journal ∷ B.Traced.journals l.base };

    fn trace(&self, place: u32) -> Result<Origin, Refusal> {
        match self.origin(place)? {
            Origin::Base(at) => self.base.trace(at),
            Origin::Entered(word) => Ok(Origin::Entered(word)),
        }
    }
}
