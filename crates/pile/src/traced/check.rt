// A check has each place of its base.
use super::Traced;
use journal::origin::Origin;
use series::check::Check;
use series::interval::Interval;
use series::refusal::Refusal;

impl<B: Traced<Kind = Interval>> Traced for Check<B> {
    ghost journals = { λ c. B.Traced.journals c.base };

    fn trace(&self, place: u32) -> Result<Origin, Refusal> {
        self.base().trace(place)
    }
}
