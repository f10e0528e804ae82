// The bottoms of a pile: their places are answered as they stand.
ghost use Rattle.std.specs.Prelude.{[]};

use super::Traced;
use journal::origin::Origin;
use profile::packed::Packed;
use series::base::Base;
use series::nominal::Nominal;
use series::reading::Reading;
use series::refusal::Refusal;
use series::register::Register;

// A base in which no journal lies.
pub trait Bare: Base {}

impl<'a, T: Reading> Bare for Register<'a, T> {}

impl<T: Reading> Bare for Nominal<T> {}

impl<'a> Bare for Packed<'a> {}

impl<B: Bare> Traced for B {
    ghost journals = { λ _. [] };

    fn trace(&self, place: u32) -> Result<Origin, Refusal> {
        Ok(Origin::Base(place))
    }
}
