// A piece: a stretch of the edited series that comes from one source, its numbers in a row.
ghost use Rattle.std.specs.Prelude.{◌≡◌, ◌+◌, ◌-◌, ◌^◌, ◌<◌, ◌≤◌, Some};
ghost use Rattle.journal.specs.Pieces.{joins, stretch, part};
ghost use Rattle.journal.specs.Texts.{source_text, piece_text};

use std::fmt;

// Where the places of a piece come from: the base, or the words that corrections entered.
#[derive(Clone, Copy, PartialEq, Eq, Debug)]
pub enum Source {
    Kept,
    Entered,
}

// `count` base places from `first` on, or `count` entered words from number `first` on.
#[derive(Clone, Copy, PartialEq, Eq, Debug)]
pub struct Piece {
    pub source: Source,
    pub first: u32,
    pub count: u32,
}

impl Piece {
    // The number after its last one.
    fn end(&self) -> u64
        ensures { result ≡ self.now.first + self.now.count }
    {
        u64::from(self.first) + u64::from(self.count)
    }

    // Whether `next`, standing right after this piece, could be one with it.
    pub(crate) fn joins(&self, next: &Piece) -> bool
        ensures { result ≡ joins self.now next.now }
    {
        self.source == next.source && self.end() == u64::from(next.first)
    }

    // The part of this piece, whose first place is `at`, that lies from place `start` up to `end`;
    // its count may be zero.
    pub(crate) fn cut(&self, at: u32, start: u32, end: u32) -> Piece
        requires { self.now.first + self.now.count < 2 ^ 32 }
        ensures ends { (result.source ≡ self.now.source) × (result.first + result.count ≤ self.now.first + self.now.count) }
        ensures places { stretch result.source result.first result.count ≡ part (start - at) (end - at) (stretch self.now.source self.now.first self.now.count) }
    {
        let to = end.saturating_sub(at).min(self.count);
        let from = start.saturating_sub(at).min(to);
        Piece {
            source: self.source,
            first: self.first + from,
            count: to - from,
        }
    }
}

impl fmt::Display for Source {
    ghost output = { λ s. Some (source_text s) };

    fn fmt<W: fmt::Write>(&self, f: &mut fmt::Formatter<W>) -> fmt::Result {
        match self {
            Source::Kept => write!(f, "k"),
            Source::Entered => write!(f, "e"),
        }
    }
}

// Source, first and count, as `k0+2`.
impl fmt::Display for Piece {
    ghost output = { λ p. Some (piece_text p) };

    fn fmt<W: fmt::Write>(&self, f: &mut fmt::Formatter<W>) -> fmt::Result {
        write!(f, "{}{}+{}", self.source, self.first, self.count)
    }
}
