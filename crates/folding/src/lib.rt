// Two journals of a pile folded to one, and what is true of every journal.
#![tactic(auto)]

ghost use Rattle.folding.specs.Journals.{JournalLaw};
ghost use Rattle.folding.specs.Piles.{FoldLaw};

// Fold two neighbours of a pile, over any base and under any other journals, where the fold is not
// refused and the lower one fits what it lies on. Then every journal from there up reads the same
// cells, under any tags, and each place of each is followed down to the same base place or word. The
// fold is tidied and started like the lower one. Three neighbours fold to one journal either way.
pub fn folds_stand<W, R>()
    ensures { FoldLaw W R }
{}

// A journal keeps its limits, its kept pieces rise inside the length started for, and its entered
// ones name words in use: at its start, after any calls, refused ones among them, and after a fold.
pub fn journals_stand<W>()
    ensures { JournalLaw W }
{}
