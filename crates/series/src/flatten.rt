// Flattening: all readings of a base, in order, at the front of a caller's buffer.
ghost use Rattle.std.specs.Prelude.{◌≡◌, ◌<◌, length as count, Ok};
ghost use Rattle.series.specs.Lists.{nth};
ghost use Rattle.series.specs.Refusals.{with_ok};
ghost use Rattle.series.specs.declared.flatten.FlattenFault.TheVariants.{AtPlace};
ghost use Rattle.series.specs.Flattened.{by_stop, flattened, of_cell};

use crate::base::Base;
use crate::cell::Cell;
use crate::fault::Fault;

// A cell that has no reading: its place in the series, and its fault.
#[derive(Clone, Copy, PartialEq, Eq, Debug)]
pub struct CellFault {
    pub place: u32,
    pub fault: Fault,
}

// Why flattening stopped.
#[derive(Clone, Copy, PartialEq, Eq, Debug)]
pub enum FlattenFault {
    // The buffer is shorter than the series.
    TooShort,
    // This cell has no reading.
    AtPlace(CellFault),
}

impl From<CellFault> for FlattenFault {
    ghost from_gives = { λ c f. f ≡ AtPlace c };

    fn from(c: CellFault) -> FlattenFault {
        FlattenFault::AtPlace(c)
    }
}

// The reading at a place below the length, or the fault there.
fn reading_at<B: Base>(base: &B, place: u32) -> Result<B::Kind, CellFault>
    requires { place < count (B.Base.cells base.now) }
    ensures { Ok result ≡ with_ok (of_cell place) (nth (B.Base.cells base.now) place) }
{
    match base.read(place) {
        Ok(Cell::Reading(x)) => Ok(x),
        Ok(Cell::Fault(fault)) => Err(CellFault { place, fault }),
        Err(_) => unreachable(),
    }
}

// Writes all readings, in order, to the front of `out`, and answers how many. A buffer shorter than
// the series is refused before any read. At the first fault it stops: the places before it are
// written, and the rest of the buffer is untouched.
pub fn flatten<B: Base>(base: &B, out: &mut [B::Kind]) -> Result<u32, FlattenFault>
    ensures { (by_stop result, out.new) ≡ flattened (B.Base.cells base.now) out.old }
{
    let length = base.length();
    if out.len() < length as usize {
        return Err(FlattenFault::TooShort);
    }
    // By number: the base is asked by it, and of a buffer that `zip` goes over nothing is known afterwards.
    for place in 0..length {
        out[place as usize] = reading_at(base, place)?;
    }
    Ok(length)
}
