// Tidied journals: each is alone with its answers, and has the fewest pieces.
ghost use Rattle.journal.specs.Tidiness.{TidiedLaw};

// Tidying leaves what is answered as it is. A tidied journal is given whole by the length that it
// was started for and by its answers, and no pieces with these answers are fewer than its own.
pub fn tidied_stand<W>()
    ensures { TidiedLaw W }
{}
