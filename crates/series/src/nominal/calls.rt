// Making a nominal base, and reading it.
ghost use Rattle.std.specs.Prelude.{◌≡◌, replicate};
ghost use Rattle.series.specs.Refusals.{by_number, with_ok};
ghost use Rattle.series.specs.Bottoms.{bounded, nominal_cells, nominal-few};
ghost use Rattle.series.specs.declared.cell.Cell.TheVariants.{Reading as CellReading};

use super::Nominal;
use crate::base::{Base, MOST_PLACES};
use crate::cell::Cell;
use crate::reading::Reading;
use crate::refusal::Refusal;

impl<T: Reading> Nominal<T> {
    // `length` cells with this reading; refuses with TooLong.
    pub fn new(reading: T, length: u32) -> Result<Nominal<T>, Refusal>
        ensures { by_number (with_ok nominal_cells result) ≡ bounded (replicate length (CellReading reading)) }
    {
        if length > MOST_PLACES {
            return Err(Refusal::TooLong);
        }
        Ok(Nominal { reading, length })
    }
}

impl<T: Reading> Base for Nominal<T> {
    type Kind = T;

    ghost cells = { nominal_cells };

    ghost few = { nominal-few };

    fn length(&self) -> u32 {
        self.length
    }

    fn read(&self, place: u32) -> Result<Cell<T>, Refusal> {
        if place >= self.length {
            return Err(Refusal::NoSuchPlace);
        }
        Ok(Cell::Reading(self.reading))
    }
}
