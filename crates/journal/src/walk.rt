// A walk over a journal, and the runs that it hands out.
ghost use Rattle.std.specs.Prelude.{◌≡◌, true, length as count_of};
ghost use Rattle.journal.specs.declared.piece.Source.TheVariants.{Entered as EnteredSource};
ghost use Rattle.journal.specs.Pieces.{of_source, within};
ghost use Rattle.journal.specs.Ends.{EndOf};

use crate::piece::Piece;
use std::slice;

pub mod steps;

// `count` base places from `place` on, or entered words, the first of which has the number `first`.
#[derive(Clone, Copy)]
pub enum Run<'a> {
    Kept { place: u32, count: u32 },
    Entered { first: u32, words: &'a [u64] },
}

// A walk hands out one run for each piece of a journal: it holds the pieces still to come, and all
// the journal's words.
#[derive(Drop)]
pub struct Walk<'a> {
    pieces: slice::Iter<'a, Piece>,
    words: &'a [u64],
    // The pieces to come are the last ones of a journal with these words.
    ghost end: { ∥ EndOf pieces.rest.now words.now ∥₁ },
    // Entered pieces lie inside the words.
    ghost inside: { within (count_of words.now) (of_source EnteredSource pieces.rest.now) ≡ true },
}
