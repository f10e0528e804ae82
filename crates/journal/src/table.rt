// The table of a journal: its pieces in the order of the edited series, joined where they could be one.
ghost use Rattle.std.specs.Prelude.{◌≡◌, ◌+◌, ◌-◌, ◌≤◌, true, [], length as count_of};
ghost use Rattle.series.specs.Lists.{nth, spliced};
ghost use Rattle.series.specs.Refusals.{by_number, with_ok};
ghost use Rattle.journal.specs.declared.piece.Source.TheVariants.{Kept, Entered as EnteredSource};
ghost use Rattle.journal.specs.Pieces.{spread, stretch, part, within};
ghost use Rattle.journal.specs.Tables.{listed, origins, found, Whole, Tidy, Appended, Made};

use crate::piece::{Piece, Source};
use series::refusal::Refusal;

// A table takes at most this many pieces.
pub(crate) const MOST_PIECES: usize = 256;

// An array beside the number of those in use, since a journal takes no memory but its own.
#[derive(Clone, Copy)]
pub(crate) struct Table {
    pieces: [Piece; MOST_PIECES],
    used: usize,
}

impl Table {
    // A table without pieces.
    pub(crate) fn empty() -> Table
        ensures tidy { Tidy result }
        ensures none { listed result ≡ [] }
    {
        Table::kept(0)
    }

    // A table for the base places below `length`: one piece, or none for no places.
    pub(crate) fn kept(length: u32) -> Table
        ensures tidy { Tidy result }
        ensures places { origins result ≡ stretch Kept 0 length }
    {
        let all = Piece {
            source: Source::Kept,
            first: 0,
            count: length,
        };
        Table {
            pieces: [all; MOST_PIECES],
            used: usize::from(length > 0),
        }
    }

    // The pieces in use.
    pub(crate) fn as_slice(&self) -> &[Piece]
        requires { self.now.used ≤ 256 }
        ensures { result.now ≡ listed self.now }
    {
        &self.pieces[..self.used]
    }

    // The number of places that the table stands for.
    #[tactic(auto, using(crate::proofs::Spreads::length_spread_sum))]
    pub(crate) fn length(&self) -> u32
        requires { Whole self.now }
        ensures { result ≡ count_of (origins self.now) }
    {
        self.as_slice().iter().map(|piece| piece.count).sum()
    }

    // Where a place comes from: its source, with its base place or the number of its word.
    pub(crate) fn find(&self, place: u32) -> Result<(Source, u32), Refusal>
        requires { Whole self.now }
        ensures { by_number (with_ok found result) ≡ nth (origins self.now) place }
    {
        // The place runs along here, in `push_range` and in `Layout::take`: an iterator that hands out pieces with
        // their places would be longer than the three loops.
        let mut left = place;
        let pieces = self.as_slice();
        for piece in pieces {
            if left < piece.count {
                return Ok((piece.source, piece.first + left));
            }
            left -= piece.count;
        }
        Err(Refusal::NoSuchPlace)
    }

    // Appends a piece, joined to the last one where it follows on.
    pub(crate) fn push_joined(&mut self, piece: Piece) -> Result<(), Refusal>
        requires tidy { Tidy self.old }
        requires short { count_of (origins self.old) + piece.count ≤ 1048576 }
        ensures { Appended self.old self.new (stretch piece.source piece.first piece.count) result }
    {
        if piece.count == 0 {
            return Ok(());
        }
        let used = self.used;
        if used > 0 && self.pieces[used - 1].joins(&piece) {
            let last = &mut self.pieces[used - 1];
            last.count += piece.count;
            return Ok(());
        }
        if used >= MOST_PIECES {
            return Err(Refusal::TooManyPieces);
        }
        self.pieces[used] = piece;
        self.used = used + 1;
        Ok(())
    }

    // Appends what `pieces` stand for from place `start` up to `end`.
    fn push_range(&mut self, pieces: &[Piece], start: u32, end: u32) -> Result<(), Refusal>
        requires tidy { Tidy self.old }
        requires ends { within 1048576 pieces.now ≡ true }
        requires whole { count_of (spread pieces.now) ≤ 1048576 }
        requires short { count_of (origins self.old) + (end - start) ≤ 1048576 }
        ensures { Appended self.old self.new (part start end (spread pieces.now)) result }
    {
        let mut at = 0;
        for piece in pieces {
            self.push_joined(piece.cut(at, start, end))?;
            at += piece.count;
        }
        Ok(())
    }

    // The table after a correction: from `place` on, `struck` places make way for `entered` words,
    // numbered from `first` on. The part before, the entered piece, the part after.
    pub(crate) fn edited(
        &self,
        place: u32,
        struck: u32,
        first: u32,
        entered: u32,
    ) -> Result<Table, Refusal>
        requires whole { Whole self.now }
        requires inside { place + struck ≤ count_of (origins self.now) }
        requires short { count_of (origins self.now) - struck + entered ≤ 1048576 }
        ensures { Made result (spliced place struck (stretch EnteredSource first entered) (origins self.now)) }
    {
        let length = self.length();
        let pieces = self.as_slice();
        let mut table = Table::empty();
        table.push_range(pieces, 0, place)?;
        table.push_joined(Piece {
            source: Source::Entered,
            first,
            count: entered,
        })?;
        table.push_range(pieces, place + struck, length)?;
        Ok(table)
    }
}
