// Why a cell has no reading.
ghost use Rattle.std.specs.Prelude.{◌<◌};

pub mod causes;

// The cause, from 1 to 255; the tag of the layer it arose in; and the place in that layer's series.
#[derive(Clone, Copy, PartialEq, Eq, Debug)]
pub struct Fault {
    pub cause: u8,
    pub tag: u8,
    pub place: u32,
    ghost caused: { 0 < cause },
}
