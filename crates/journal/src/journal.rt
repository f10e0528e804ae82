// A journal: the length that it was started for, its pieces and the words entered, with what is
// true of every journal.
ghost use Rattle.std.specs.Prelude.{◌≡◌, ◌≤◌, true, length as count_of};
ghost use Rattle.journal.specs.declared.piece.Source.TheVariants.{Kept, Entered as EnteredSource};
ghost use Rattle.journal.specs.Pieces.{none_empty, none_joins, total, of_source, rise, within};
ghost use Rattle.journal.specs.Tables.{listed};
ghost use Rattle.journal.specs.Stores.{in_use};

use crate::table::Table;
use crate::words::WordStore;

pub mod calls;
pub mod corrections;
pub(crate) mod layout;
pub mod tidy;

pub use series::base::MOST_PLACES;

// A journal takes at most this many words.
pub const MOST_WORDS: usize = 1024;

#[derive(Clone, Copy)]
pub struct Journal {
    started: u32,
    table: Table,
    words: WordStore,
    // No count is zero, and no two neighbours could be one piece.
    ghost counts: { none_empty (listed table) ≡ true },
    ghost joined: { none_joins (listed table) ≡ true },
    // The counts add to no more than a series has places.
    ghost short: { total (listed table) ≤ 1048576 },
    // Kept pieces lie inside the length started for, and rise without overlap.
    ghost kept: { rise 0 started (of_source Kept (listed table)) ≡ true },
    // Entered pieces lie inside the words in use, and count no more than these.
    ghost inside: { within words.used (of_source EnteredSource (listed table)) ≡ true },
    ghost counted: { total (of_source EnteredSource (listed table)) ≤ words.used },
    // The limits.
    ghost few: { table.used ≤ 256 },
    ghost room: { words.used ≤ 1024 },
    ghost based: { started ≤ 1048576 },
    // The store holds every word in use.
    ghost stored: { count_of (in_use words) ≡ words.used },
}
