// The history of a journal: what stands where after any calls, and what is read there.
#![tactic(auto)]

ghost use Rattle.history.specs.History.{HistoryLaw};

// Start a journal for a base's length, make any corrections, drafts and batches on it, refused ones
// among them, tidy it at any points, and lay it on the base. Then, for words and readings of any types:
//
// An item is a base place or an entered word, the latter told by the point at which it was entered
// and never by its value. Each base place and each word of an accepted correction stands at exactly
// one place if no accepted correction struck it, and nowhere otherwise. Nothing else stands, and
// each place holds exactly one item. Base places stand in rising order.
//
// Where a base place stands, origin answers it and the base's cell is read; where an entered word
// stands, origin answers the word and its reading is read. The length and all struck are together
// the base's length and all entered. What is read is the base's cells with the accepted corrections
// made on them in turn.
pub fn history_stands<W, R>()
    ensures { HistoryLaw W R }
{}
