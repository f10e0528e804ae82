// Why a call declined, and the number that stands for it.
ghost use Rattle.std.specs.Prelude.{◌≡◌, Some};
ghost use Rattle.series.specs.Refusals.{number, refusal_text};

use std::fmt;

// Each refusal is the number that stands for it.
#[derive(Clone, Copy, PartialEq, Eq, Debug)]
pub enum Refusal {
    // There is no such place.
    NoSuchPlace = 1,
    // More than 1,048,576 places.
    TooLong = 2,
    // More than 1,024 words.
    TooManyWords = 3,
    // More than 256 pieces.
    TooManyPieces = 4,
    // The upper journal was not started for the lower one's edited length.
    NotForLower = 5,
    // The bytes end too early.
    BytesEnd = 6,
    // A bit of a map without meaning stands.
    UnknownBit = 7,
    // A field that is present is zero.
    ZeroField = 8,
    // The buffer is too short.
    BufferShort = 10,
}

impl Refusal {
    // The number of this refusal.
    pub fn number(self) -> u8
        ensures { result ≡ number self }
    {
        self as u8
    }
}

impl fmt::Display for Refusal {
    ghost output = { λ r. Some (refusal_text (number r)) };

    fn fmt<W: fmt::Write>(&self, f: &mut fmt::Formatter<W>) -> fmt::Result {
        write!(f, "refused {}", self.number())
    }
}
