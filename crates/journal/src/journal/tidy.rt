// Tidying a journal.
ghost use Rattle.std.specs.Prelude.{◌≡◌, ℕ, ◌≤◌, List, map, length as count_of};
ghost use Rattle.journal.specs.declared.piece.Piece.{Piece as APiece};
ghost use Rattle.journal.specs.Machine.{State, answers};
ghost use Rattle.journal.specs.Pieces.{spread, gathered};
ghost use Rattle.journal.specs.Journals.{state};
ghost use Rattle.journal.specs.Tidied.{tidied as made_tidy};
ghost use Rattle.journal.specs.Tidiness.{IsTidied, stored as told_from};

use super::Journal;
use super::layout::Layout;

impl Journal {
    // Lays the entered words out in the order of the series without the struck ones, numbers them
    // from 0 on and joins the pieces again. What is answered stays as it is; no pieces with these
    // answers are fewer, and no other tidied journal has them.
    pub fn tidy(&mut self)
        ensures outcome { state self.new ≡ made_tidy (state self.old) }
        ensures told { answers (state self.new) ≡ answers (state self.old) }
        ensures fewest { (rival : List APiece) (store : ℕ → ℕ) → map (told_from store) (spread rival) ≡ answers (state self.old) → count_of (gathered (state self.new).origins) ≤ count_of rival }
        ensures alone { (other : State ℕ) → IsTidied other → other.started ≡ (state self.old).started → answers other ≡ answers (state self.old) → other ≡ state self.new }
    {
        let mut layout = Layout::new();
        layout.take(self, 0, self.length()).unwrap();
        *self = layout.finish(self.started).unwrap();
    }
}
