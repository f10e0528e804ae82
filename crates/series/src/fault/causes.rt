// The causes of the layers of this repository, the faults that they make, and what a fault prints.
ghost use Rattle.std.specs.Prelude.{◌≡◌, Some};
ghost use Rattle.series.specs.Faults.{fault_text, of_cause};

use super::Fault;
use std::fmt;

// Each cause is its number. Layers of one's own have other numbers, up to 255.
#[derive(Clone, Copy, PartialEq, Eq, Debug)]
pub enum Cause {
    // No reading was delivered for this place of a profile.
    NotDelivered = 11,
    // The amount at this place is over the limit of a check.
    OverLimit = 12,
    // The journal names this base place, which lies past the end of the base.
    PastBase = 13,
}

impl Fault {
    // The fault of this cause in the layer with this tag.
    pub fn new(cause: Cause, tag: u8, place: u32) -> Fault
        ensures { result ≡ of_cause cause tag place }
    {
        Fault {
            cause: cause as u8,
            tag,
            place,
        }
    }
}

impl fmt::Display for Fault {
    ghost output = { λ x. Some (fault_text x) };

    fn fmt<W: fmt::Write>(&self, f: &mut fmt::Formatter<W>) -> fmt::Result {
        write!(f, "fault {} {} {}", self.cause, self.tag, self.place)
    }
}
