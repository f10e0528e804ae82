// A line of the listing, and its text.
ghost use Rattle.std.specs.Prelude.{Some};
ghost use Rattle.journal.specs.Journals.{told};
ghost use Rattle.listing.specs.Lines.{origin_text, shown_line};

use journal::origin::Origin;
use series::cell::Cell;
use series::interval::Interval;
use std::fmt;

// A place of the corrected series, where it comes from, and what it reads as.
#[derive(Clone, Copy)]
pub struct Line {
    pub place: u32,
    pub origin: Origin,
    pub cell: Cell<Interval>,
}

// An origin as the listing shows it: an entered word is not told.
#[derive(Clone, Copy)]
pub struct OriginText(pub Origin);

impl fmt::Display for OriginText {
    ghost output = { λ o. Some (origin_text (told o.0)) };

    fn fmt<W: fmt::Write>(&self, f: &mut fmt::Formatter<W>) -> fmt::Result {
        match self.0 {
            Origin::Base(place) => write!(f, "b{place}"),
            Origin::Entered(_) => write!(f, "e"),
        }
    }
}

impl fmt::Display for Line {
    ghost output = { λ l. Some (shown_line l) };

    fn fmt<W: fmt::Write>(&self, f: &mut fmt::Formatter<W>) -> fmt::Result {
        write!(
            f,
            "{} {} {}",
            self.place,
            OriginText(self.origin),
            self.cell
        )
    }
}
