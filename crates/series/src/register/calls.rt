// Making and filling a register, and reading it.
ghost use Rattle.std.specs.Prelude.{◌≡◌, true, [], map, is_err};
ghost use Rattle.series.specs.Refusals.{by_number, with_ok};
ghost use Rattle.series.specs.Bottoms.{bounded, register_cells, register-few};
ghost use Rattle.series.specs.declared.cell.Cell.TheVariants.{Reading as CellReading};

use super::Register;
use crate::base::{Base, MOST_PLACES};
use crate::cell::Cell;
use crate::reading::Reading;
use crate::refusal::Refusal;

impl<'a, T: Reading> Register<'a, T> {
    // A register with no readings.
    pub fn new() -> Register<'a, T>
        ensures { register_cells result ≡ [] }
    {
        Register { readings: &[] }
    }

    // The register of these readings; refuses with TooLong.
    pub fn of(readings: &'a [T]) -> Result<Register<'a, T>, Refusal>
        ensures { by_number (with_ok register_cells result) ≡ bounded (map CellReading readings.now) }
    {
        if readings.len() > MOST_PLACES as usize {
            return Err(Refusal::TooLong);
        }
        Ok(Register { readings })
    }

    // Becomes the register of these readings. Refuses with TooLong; a refusal leaves the register as it was.
    pub fn fill(&mut self, readings: &'a [T]) -> Result<(), Refusal>
        ensures outcome { by_number (with_ok (λ _. register_cells self.new) result) ≡ bounded (map CellReading readings.now) }
        ensures same { is_err result ≡ true → self.new ≡ self.old }
    {
        *self = Register::of(readings)?;
        Ok(())
    }
}

impl<'a, T: Reading> Base for Register<'a, T> {
    type Kind = T;

    ghost cells = { register_cells };

    ghost few = { register-few };

    fn length(&self) -> u32 {
        self.readings.len() as u32
    }

    fn read(&self, place: u32) -> Result<Cell<T>, Refusal> {
        let at = place as usize;
        if at >= self.readings.len() {
            return Err(Refusal::NoSuchPlace);
        }
        Ok(Cell::Reading(self.readings[at]))
    }
}
