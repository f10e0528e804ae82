// What a base is: a list of at most 1,048,576 cells that one can only read.
ghost use Rattle.std.specs.Prelude.{◌≡◌, ◌≤◌, List, length as count};
ghost use Rattle.series.specs.Lists.{nth};
ghost use Rattle.series.specs.Refusals.{by_number};
ghost use Rattle.series.specs.declared.cell.Cell.{Cell as CellOf};

use crate::cell::Cell;
use crate::reading::Reading;
use crate::refusal::Refusal;

// A base has at most this many places.
pub const MOST_PLACES: u32 = 1048576;

pub trait Base {
    type Kind: Reading;

    // The list that a base means.
    ghost cells: { Self → List (CellOf Self.Kind) };

    // Each implementation proves that it is no longer than a base may be.
    ghost few: { (b : Self) → count (cells b) ≤ 1048576 };

    // The number of cells.
    fn length(&self) -> u32
        ensures { result ≡ count (cells self.now) };

    // The cell at a place; refuses with NoSuchPlace exactly at or past the length.
    fn read(&self, place: u32) -> Result<Cell<Self::Kind>, Refusal>
        ensures { by_number result ≡ nth (cells self.now) place };
}
