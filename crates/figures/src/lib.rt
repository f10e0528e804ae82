// The worked figures, as one theorem on the definitions that the contracts of the calls use.
#![tactic(auto)]

ghost use Rattle.figures.specs.Figures.{Figures};

// Worked by hand, and proved: corrections of a series of ten places, a fold, words of intervals, and
// the bytes of a record.
pub fn figures_stand()
    ensures { Figures }
{}
