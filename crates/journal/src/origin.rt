// Where a place of the edited series comes from: a place of the base, or an entered word.
ghost use Rattle.std.specs.Prelude.{Some};
ghost use Rattle.journal.specs.Journals.{told};
ghost use Rattle.journal.specs.Texts.{origin_text};

use std::fmt;

#[derive(Clone, Copy, PartialEq, Eq, Debug)]
pub enum Origin {
    Base(u32),
    Entered(u64),
}

// The base place as `b5`, the word as `e70`.
impl fmt::Display for Origin {
    ghost output = { λ o. Some (origin_text (told o)) };

    fn fmt<W: fmt::Write>(&self, f: &mut fmt::Formatter<W>) -> fmt::Result {
        match self {
            Origin::Base(place) => write!(f, "b{place}"),
            Origin::Entered(word) => write!(f, "e{word}"),
        }
    }
}
